// What both ends of the line share: codes by name, packets and the commands in them, acknowledgements, replies.
#![tactic(auto)]

mod acknowledgement;
pub mod codes;
mod commands;
mod replies;

pub use acknowledgement::{FrameError, acknowledge, is_rate};
pub use commands::read_command;
pub use replies::write_reply;

// A packet has seven bytes beside its core: a header, the core's length L, and the core's checksum at its end.
pub const PACKET_FRAME: usize = 7;

pub const LENGTH_AT: usize = 1;

pub(crate) const CHECKSUM_SIZE: usize = 4;

// The core begins with the command byte.
pub const CORE_AT: usize = 3;

// After it stand a password, a rate id, or an address.
pub const FIRST_AT: usize = 4;

// After an address stand a second one, a size, or data to be programmed.
pub const SECOND_AT: usize = 8;

// A protected command. Its wrong length is told in here, so that nobody looks at it before the lock. The data of Program stay
// in the packet, `size` bytes from SECOND_AT on, and so does a reset password, 16 bytes from FIRST_AT on. Of the two that
// program, 0x24 is the silent one.
#[derive(Clone, Copy, Debug, PartialEq, Eq)]
pub enum Guarded {
    RangeErase {
        start: u32,
        end: u32,
    },
    MassErase,
    Program {
        address: u32,
        size: u32,
        silent: bool,
    },
    ReadBack {
        address: u32,
        size: u32,
    },
    Verify {
        address: u32,
        size: u32,
    },
    FactoryReset {
        with_password: bool,
    },
    WrongLength,
}

// What a packet asks for, read without looking at the lock. The password of Unlock stays in the packet, 32 bytes from FIRST_AT on.
#[derive(Clone, Copy, Debug, PartialEq, Eq)]
pub enum Command {
    Connect,
    Info,
    Unlock,
    Guarded(Guarded),
    Start,
    Rate(u8),
    WrongLength,
    Unknown,
}

// What is sent back; the bytes of Read back and the version that Info tells stand beside it. Info is long on a part whose version has eight bytes.
// FlashError is the one Detailed Error there is. An acknowledgement and a message are bytes, for each byte is sent, also one that is no code.
#[derive(Clone, Copy, Debug, PartialEq, Eq)]
pub enum Reply {
    Silence,
    Acknowledged(u8),
    Message(u8),
    Info {
        long: bool,
        bcr_id: u32,
        bsl_id: u32,
    },
    Bytes,
    Sum(u32),
    FlashError,
}
