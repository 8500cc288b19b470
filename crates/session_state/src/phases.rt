// Which standings are valid.
ghost use Rattle.std.specs.Prelude.{◌≡◌};
ghost use Rattle.session_state.specs.Phases.{is_valid_phase, counts_fit, is_valid};

use crate::{MOST_IDLE, MOST_SLEEP, MOST_TRIES, MOST_WRONG, Phase, Standing};

// Whether lock and sleep go together.
#[tactic(auto, unfolding(octets::specs::Choice::pick))]
fn is_valid_phase(phase: Phase) -> bool
    ensures { result ≡ is_valid_phase phase }
{
    match phase {
        Phase::Command {
            unlocked: true,
            sleep,
        } => sleep == 0,
        Phase::Command {
            unlocked: false,
            sleep,
        } => sleep <= MOST_SLEEP,
        Phase::Detect | Phase::Standby | Phase::Ended | Phase::Disabled => true,
    }
}

// Whether the count and the total of wrong passwords go together.
#[tactic(auto, unfolding(crate::specs::Phases::counts_fit, octets::specs::Choice::pick))]
fn counts_fit(wrong: u8, tries: u32) -> bool
    ensures { result ≡ counts_fit wrong tries }
{
    wrong <= MOST_WRONG && u32::from(wrong) <= tries && tries <= MOST_TRIES
}

// Whether a record may say that a session stands so, on a part whose last rate has the given id.
#[tactic(auto, unfolding(crate::specs::Phases::is_valid, octets::specs::Choice::pick))]
pub fn is_valid(last_rate: u8, standing: Standing) -> bool
    ensures { result ≡ is_valid last_rate standing }
{
    standing.idle <= MOST_IDLE
        && counts_fit(standing.wrong, standing.tries)
        && line::is_rate(last_rate, standing.rate)
        && is_valid_phase(standing.phase)
}
