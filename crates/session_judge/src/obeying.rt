// A command of the command phase, whose packet was acknowledged by 0x00.
ghost use Rattle.std.specs.Prelude.{◌≡◌};
ghost use Rattle.session_state.specs.declared.Phase.TheVariants.{Ended};
ghost use Rattle.session_state.specs.Waits.{moved_to};
ghost use Rattle.session_judge.specs.Obeying.{with_rate, obeyed};

use crate::{Effect, Judged, judgement, unlocking};
use line::{Command, codes};
use session_state::{Phase, Standing};

fn ended(standing: Standing) -> Standing
    ensures { result ≡ moved_to standing Ended standing.idle }
{
    Standing {
        phase: Phase::Ended,
        ..standing
    }
}

fn with_rate(standing: Standing, id: u8) -> Standing
    ensures { result ≡ with_rate standing id }
{
    Standing {
        rate: id,
        ..standing
    }
}

// What a session does with a command, by its lock; `right` is whether the packet carries its password.
#[tactic(auto, unfolding(octets::specs::Choice::pick))]
pub(crate) fn obeyed(
    standing: Standing,
    alert: u8,
    unlocked: bool,
    right: bool,
    command: Command,
) -> Judged
    ensures { result ≡ obeyed standing alert unlocked right command }
{
    match command {
        Command::Connect => judgement::acknowledges(standing, codes::ACKNOWLEDGED),
        Command::Info => judgement::judged(standing, Effect::TellInfo),
        Command::Unlock => unlocking::tried(standing, alert, right),
        Command::Guarded(task) => {
            if unlocked {
                return judgement::judged(standing, Effect::Perform(task));
            }
            judgement::tells(standing, codes::LOCKED)
        }
        Command::Start => judgement::acknowledges(ended(standing), codes::ACKNOWLEDGED),
        Command::Rate(id) => judgement::acknowledges(with_rate(standing, id), codes::ACKNOWLEDGED),
        Command::WrongLength => judgement::tells(standing, codes::WRONG_LENGTH),
        Command::Unknown => judgement::tells(standing, codes::UNKNOWN_COMMAND),
    }
}
