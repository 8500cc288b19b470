// Flash and the SRAM window: which region holds a range, its sectors and their protection, and what an erase and a program leave. `as` stands
// where std has no `From`, to and from `usize`.
#![tactic(auto)]

mod erasing;
mod programming;
mod protection;
mod regions;

pub use erasing::{erase_all, erase_between};
pub use programming::program;
pub use regions::{bytes_in, is_main_size, locate};

// Where a range of addresses can lie. `Outside` is a case, and no `None`: an answer with no bytes beside it has its bytes there.
#[derive(Clone, Copy, Debug, PartialEq, Eq)]
pub enum Region {
    Main,
    Settings,
    Window,
    Outside,
}

// The region that holds a range wholly, and how far from its start the range begins; 0 outside. And the address of the first place of the range
// that is protected, if one is. It has 64 bits, since a region's start and an offset may need more than 32.
#[derive(Clone, Copy, Debug, PartialEq, Eq)]
pub struct Place {
    pub region: Region,
    pub offset: usize,
    pub first_protected: Option<u64>,
}

// Sectors of one size, from the start of a region on, and their protection, one bit each.
#[derive(Clone, Copy, Debug)]
pub struct Sectors<'a> {
    pub size: usize,
    pub protection: &'a [u8],
}

// The memory of a board, to be read: MAIN, the settings flash, which holds the passwords, and the SRAM window.
#[derive(Clone, Copy)]
pub struct Areas<'a> {
    pub main: &'a [u8],
    pub settings: &'a [u8],
    pub window: &'a [u8],
}
