// The judge: what a session does with a packet. It sees how the session stands, the alert setting, the wait, the packet, and one
// bit: whether the packet carries the password. No memory and no password come in here. Of the part the last rate's id alone: a number stays in
// a register.
#![tactic(auto)]

mod hearing;
mod judgement;
mod obeying;
mod unlocking;

pub use hearing::judge;
use line::{Guarded, Reply};
use session_state::Standing;

// What is to be done. Only a session that is unlocked is told to perform a protected command.
#[derive(Clone, Copy, Debug, PartialEq, Eq)]
pub enum Effect {
    Say(Reply),
    TellInfo,
    Strike,
    Perform(Guarded),
}

// How the session stands then, what is to be done, and whether the board burns its fuse. No Option: both stand there beside either answer.
#[derive(Clone, Copy, Debug, PartialEq, Eq)]
pub struct Judged {
    pub standing: Standing,
    pub effect: Effect,
    pub burn: bool,
}
