// A session of a board: its start, and each call of it. A part's sizes are numbers of 32 bits, and go by `as usize`: Rust has no From for that.
#![tactic(auto)]

ghost use Rattle.std.specs.Prelude.{◌≡◌};
ghost use Rattle.session.specs.declared.StartError.TheVariants.{Image};

mod calling;
mod passwords;
mod records;
mod starting;

pub use calling::call;
use session_state::Standing;
use settings::{Kept, Refusal};
pub use starting::start;

// The session record: how the session stands, the size of MAIN, and the settings as they were at start.
#[derive(Clone, Copy)]
pub struct Session {
    pub standing: Standing,
    pub main_size: u32,
    pub settings: Kept,
}

// Why a start is refused.
#[derive(Clone, Copy, Debug, PartialEq, Eq)]
pub enum StartError {
    FuseSet,
    MainSizeWrong,
    WindowSizeWrong,
    Image(Refusal),
}

impl From<Refusal> for StartError {
    ghost from_gives = { λ refusal error. error ≡ Image refusal };

    fn from(refusal: Refusal) -> StartError {
        StartError::Image(refusal)
    }
}

// What a call leaves that is not refused: the session for the next call, the size of the reply, and whether the board is to burn its fuse.
#[derive(Clone, Copy)]
pub struct Called {
    pub session: Session,
    pub size: usize,
    pub burn: bool,
}

// Why a call is refused. It changes nothing, and the next call is given the same session again.
#[derive(Clone, Copy, Debug, PartialEq, Eq)]
pub enum CallError {
    ReplyAreaTooSmall,
    WindowSizeWrong,
    RecordNotValid,
}
