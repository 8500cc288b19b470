// How a session stands: its phase, lock, sleep, idle time, count and total of wrong passwords, and rate; and how time passes for it.
// No memory, no settings and no password in here.
#![tactic(auto)]

ghost use Rattle.std.specs.Prelude.{◌≡◌};
ghost use Rattle.session_state.specs.Phases.{sleep_of};

mod phases;
mod rates;
mod waits;

pub use phases::is_valid;
pub use rates::rate_of;
pub use waits::pass_time;

// The most that a valid standing has of idle time, of sleep, both in milliseconds, of wrong passwords since a right one, and of all.
pub(crate) const MOST_IDLE: u32 = 9999;

pub const MOST_SLEEP: u32 = 2000;

pub const MOST_WRONG: u8 = 3;

pub const MOST_TRIES: u32 = 65535;

// The rate id at start, and after a wrong password.
pub const RATE_ID_AT_START: u8 = 2;

// The lock and the sleep that is left, in milliseconds, are there in the command phase alone.
#[derive(Clone, Copy, Debug, PartialEq, Eq)]
pub enum Phase {
    Detect,
    Command { unlocked: bool, sleep: u32 },
    Standby,
    Ended,
    Disabled,
}

impl Phase {
    // The sleep that is left, in milliseconds; there is none outside the command phase.
    pub fn sleep(self) -> u32
        ensures { result ≡ sleep_of self }
    {
        match self {
            Phase::Command { sleep, .. } => sleep,
            Phase::Detect | Phase::Standby | Phase::Ended | Phase::Disabled => 0,
        }
    }
}

// How a session stands: its phase, for how many milliseconds it has been idle, the count of wrong passwords, which a right one clears, the
// rate id, and the total of wrong passwords, which nothing clears.
#[derive(Clone, Copy, Debug, PartialEq, Eq)]
pub struct Standing {
    pub phase: Phase,
    pub idle: u32,
    pub wrong: u8,
    pub rate: u8,
    pub tries: u32,
}

// How a session stands after a wait, and whether the packet that came then is heard. No Option: the session stands so in both cases.
#[derive(Clone, Copy, Debug, PartialEq, Eq)]
pub struct Passed {
    pub standing: Standing,
    pub heard: bool,
}
