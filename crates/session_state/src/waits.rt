// How time passes: sleep is used up first, and the rest of a wait is idle time.
ghost use Rattle.std.specs.Prelude.{◌≡◌, ◌+◌};
ghost use Rattle.octets.specs.Choice.{pick};
ghost use Rattle.session_state.specs.Waits.{is_idle_too_long, moved_to, heard, detect_idles, command_idles, pass_time};

use crate::{Passed, Phase, Standing};

// The idle time that ends detect, and locks the command phase.
const IDLE_LIMIT: u32 = 10000;

// Whether idle time reaches the limit with so much more. The sum may need more than 32 bits.
#[tactic(auto, unfolding(crate::specs::Waits::is_idle_too_long))]
fn is_idle_too_long(standing: Standing, rest: u32) -> bool
    ensures { result ≡ is_idle_too_long standing rest }
{
    u64::from(IDLE_LIMIT) <= u64::from(standing.idle) + u64::from(rest)
}

// Another phase and idle time; the wrong count, the rate and the total stay.
fn moved_to(standing: Standing, phase: Phase, idle: u32) -> Standing
    ensures { result ≡ moved_to standing phase idle }
{
    Standing {
        phase,
        idle,
        ..standing
    }
}

// The rest of a wait is idle time: in this phase below the limit, and from the limit on as `over` says.
#[tactic(auto, using(crate::proofs::WaitLaws::idle_below_limit), unfolding(octets::specs::Choice::pick))]
fn idled(standing: Standing, phase: Phase, rest: u32, over: Passed) -> Passed
    ensures { result ≡ pick (is_idle_too_long standing rest) over (heard (moved_to standing phase (standing.idle + rest))) }
{
    if is_idle_too_long(standing, rest) {
        return over;
    }
    Passed {
        standing: moved_to(standing, phase, standing.idle + rest),
        heard: true,
    }
}

#[tactic(auto, unfolding(crate::specs::Waits::detect_idles))]
fn detect_idles(standing: Standing, rest: u32) -> Passed
    ensures { result ≡ detect_idles standing rest }
{
    let over = Passed {
        standing: moved_to(standing, Phase::Standby, 0),
        heard: false,
    };
    idled(standing, Phase::Detect, rest, over)
}

#[tactic(auto, unfolding(crate::specs::Waits::command_idles))]
fn command_idles(standing: Standing, unlocked: bool, rest: u32) -> Passed
    ensures { result ≡ command_idles standing unlocked rest }
{
    let locked = Phase::Command {
        unlocked: false,
        sleep: 0,
    };
    let over = Passed {
        standing: moved_to(standing, locked, 0),
        heard: true,
    };
    let awake = Phase::Command { unlocked, sleep: 0 };
    idled(standing, awake, rest, over)
}

// How a session stands after a wait of so many milliseconds. The packet that came then is heard, or it is dropped.
#[tactic(auto, unfolding(crate::specs::Waits::pass_time, octets::specs::Choice::pick))]
pub fn pass_time(standing: Standing, wait: u32) -> Passed
    ensures { result ≡ pass_time standing wait }
{
    match standing.phase {
        Phase::Detect => detect_idles(standing, wait),
        Phase::Command { unlocked, sleep } => {
            if wait < sleep {
                let asleep = Phase::Command {
                    unlocked,
                    sleep: sleep - wait,
                };
                return Passed {
                    standing: moved_to(standing, asleep, standing.idle),
                    heard: false,
                };
            }
            command_idles(standing, unlocked, wait - sleep)
        }
        Phase::Standby | Phase::Ended | Phase::Disabled => Passed {
            standing,
            heard: false,
        },
    }
}
