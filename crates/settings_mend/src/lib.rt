// Mending a settings image of form 1 that the reader does not accept, as far as its bytes tell what they should be.
#![tactic(auto)]

mod examining;
mod mending;

pub use examining::examine;
pub use mending::mend;

// What an image is found to be that is not refused. Only one that is damaged is changed.
#[derive(Clone, Copy, Debug, PartialEq, Eq)]
pub enum Examined {
    Accepted,
    Damaged,
}

// Why an image is not mended.
#[derive(Clone, Copy, Debug, PartialEq, Eq)]
pub enum MendError {
    SizeWrong,
    FormTwo,
}

// How many bytes were changed, by where they stand.
#[derive(Clone, Copy, Debug, Default, PartialEq, Eq)]
pub struct Changes {
    pub table: u16,
    pub filler: u16,
    pub values: u16,
    pub checksum: u16,
}
