// The session record updated in place. Document 01: "keeps one session record and hands it to each call to be updated".
#![tactic(auto)]

mod calling;
mod starting;

pub use calling::call;
pub use starting::start;

// What a call answers that is not refused: the size of the reply, and whether the board is to burn its fuse.
#[derive(Clone, Copy, Debug, PartialEq, Eq)]
pub struct Done {
    pub size: usize,
    pub burn: bool,
}
