// Hearing a packet: after the wait, by the phase, and by its acknowledgement.
ghost use Rattle.std.specs.Prelude.{◌≡◌, false};
ghost use Rattle.line.specs.Commands.{is_known};
ghost use Rattle.session_state.specs.declared.Phase.TheVariants as phase;
ghost use Rattle.session_state.specs.Waits.{moved_to};
ghost use Rattle.session_judge.specs.Hearing.{silently, heard_in_detect, stirred, heard_in_command, judged_of};

use crate::{Effect, Judged, judgement, obeying};
use line::{CORE_AT, Command, PACKET_FRAME, Reply, codes};
use session_state::{Phase, Standing};

fn silently(standing: Standing) -> Judged
    ensures { result ≡ silently standing }
{
    judgement::judged(standing, Effect::Say(Reply::Silence))
}

// The command phase, locked.
fn connected(standing: Standing) -> Standing
    ensures { result ≡ moved_to standing (phase.Command false 0) 0 }
{
    Standing {
        phase: Phase::Command {
            unlocked: false,
            sleep: 0,
        },
        idle: 0,
        ..standing
    }
}

// The size of a Connect: its core is the command byte alone.
const CONNECT_SIZE: usize = PACKET_FRAME + 1;

// Only an exact Connect is answered, so nothing else is read of the packet.
#[tactic(auto, unfolding(crate::specs::Hearing::heard_in_detect, octets::specs::Choice::pick))]
fn heard_in_detect(last_rate: u8, standing: Standing, packet: &[u8]) -> Judged
    ensures { result ≡ heard_in_detect last_rate standing packet.now }
{
    let Ok(()) = line::acknowledge(last_rate, packet) else {
        return silently(standing);
    };
    if octets::byte_at(packet, CORE_AT) != codes::CONNECT {
        return silently(standing);
    }
    if packet.len() != CONNECT_SIZE {
        return silently(standing);
    }
    judgement::acknowledges(connected(standing), codes::ACKNOWLEDGED)
}

// Whether the command byte was one of the twelve.
fn is_known(command: Command) -> bool
    ensures { result ≡ is_known command }
{
    !matches!(command, Command::Unknown)
}

// A command byte that is one of the twelve ends idle time.
#[tactic(auto, unfolding(crate::specs::Hearing::stirred, octets::specs::Choice::pick))]
fn stirred(standing: Standing, command: Command) -> Standing
    ensures { result ≡ stirred standing command }
{
    if is_known(command) {
        return Standing {
            idle: 0,
            ..standing
        };
    }
    standing
}

#[tactic(auto, unfolding(crate::specs::Hearing::heard_in_command, octets::specs::Choice::pick))]
fn heard_in_command(
    last_rate: u8,
    standing: Standing,
    alert: u8,
    unlocked: bool,
    packet: &[u8],
    right: bool,
) -> Judged
    ensures { result ≡ heard_in_command last_rate standing alert unlocked packet.now right }
{
    if let Err(error) = line::acknowledge(last_rate, packet) {
        return judgement::acknowledges(standing, u8::from(error));
    }
    let command = line::read_command(packet);
    obeying::obeyed(stirred(standing, command), alert, unlocked, right, command)
}

// What a session does with a packet that came after a wait of so many milliseconds. `right` says whether the packet carries the
// session's password, and is looked at only where the packet is an Unlock. The part's last rate has the id `last_rate`.
#[tactic(auto, unfolding(crate::specs::Hearing::heard_after, crate::specs::Hearing::judged_of, octets::specs::Choice::pick))]
pub fn judge(
    last_rate: u8,
    standing: Standing,
    alert: u8,
    wait: u32,
    packet: &[u8],
    right: bool,
) -> Judged
    ensures { result ≡ judged_of last_rate standing alert wait packet.now right }
{
    let passed = session_state::pass_time(standing, wait);
    let after = passed.standing;
    if !passed.heard || packet.is_empty() {
        return silently(after);
    }
    match after.phase {
        Phase::Detect => heard_in_detect(last_rate, after, packet),
        Phase::Command { unlocked, .. } => {
            heard_in_command(last_rate, after, alert, unlocked, packet, right)
        }
        Phase::Standby | Phase::Ended | Phase::Disabled => silently(after),
    }
}
