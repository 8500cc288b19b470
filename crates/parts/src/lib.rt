// The parts whose loader this is. Each is a type that carries its numbers as constants; `Part` hands them on. No trait over both types: each
// constant would stand there a second time, for the clauses, and a part is also a value that is known at run time only.
#![tactic(auto)]

ghost use Rattle.std.specs.Prelude.{◌≡◌};
ghost use Rattle.parts.specs.Parts.{mspm0, am13e230x};

// The numbers of a part. MAIN starts at 0, and its size is the board's. A part without an SRAM window has one of 0 bytes. A version has four
// bytes, or eight where it is long.
#[derive(Clone, Copy, Debug, PartialEq, Eq)]
pub struct Part {
    pub sector_size: u32,
    pub word_size: u32,
    pub most_main: u32,
    pub settings_start: u32,
    pub settings_size: u32,
    pub window_start: u32,
    pub window_size: u32,
    pub least_verify: u32,
    pub last_rate: u8,
    pub long_version: bool,
}

// The part of source document 004.
#[derive(Clone, Copy, Debug, PartialEq, Eq)]
pub struct Mspm0;

impl Mspm0 {
    pub const SECTOR_SIZE: u32 = 1024;

    pub const WORD_SIZE: u32 = 8;

    pub const MOST_MAIN: u32 = 65536;

    pub const SETTINGS_START: u32 = 0x41C0_0000;

    pub const SETTINGS_SIZE: u32 = 1024;

    pub const WINDOW_START: u32 = 0x2000_0160;

    pub const WINDOW_SIZE: u32 = 3456;

    pub const LEAST_VERIFY: u32 = 1024;

    pub const LAST_RATE: u8 = 9;

    pub const LONG_VERSION: bool = false;

    // Its numbers.
    pub fn part() -> Part
        ensures { result ≡ mspm0 }
    {
        Part {
            sector_size: Mspm0::SECTOR_SIZE,
            word_size: Mspm0::WORD_SIZE,
            most_main: Mspm0::MOST_MAIN,
            settings_start: Mspm0::SETTINGS_START,
            settings_size: Mspm0::SETTINGS_SIZE,
            window_start: Mspm0::WINDOW_START,
            window_size: Mspm0::WINDOW_SIZE,
            least_verify: Mspm0::LEAST_VERIFY,
            last_rate: Mspm0::LAST_RATE,
            long_version: Mspm0::LONG_VERSION,
        }
    }
}

// The larger part, of source document 000.
#[derive(Clone, Copy, Debug, PartialEq, Eq)]
pub struct Am13e230x;

impl Am13e230x {
    pub const SECTOR_SIZE: u32 = 2048;

    pub const WORD_SIZE: u32 = 16;

    pub const MOST_MAIN: u32 = 524288;

    pub const SETTINGS_START: u32 = 0x6010_0800;

    pub const SETTINGS_SIZE: u32 = 2048;

    pub const WINDOW_START: u32 = 0x2000_0160;

    pub const WINDOW_SIZE: u32 = 0;

    pub const LEAST_VERIFY: u32 = 2048;

    pub const LAST_RATE: u8 = 0x10;

    pub const LONG_VERSION: bool = true;

    // Its numbers.
    pub fn part() -> Part
        ensures { result ≡ am13e230x }
    {
        Part {
            sector_size: Am13e230x::SECTOR_SIZE,
            word_size: Am13e230x::WORD_SIZE,
            most_main: Am13e230x::MOST_MAIN,
            settings_start: Am13e230x::SETTINGS_START,
            settings_size: Am13e230x::SETTINGS_SIZE,
            window_start: Am13e230x::WINDOW_START,
            window_size: Am13e230x::WINDOW_SIZE,
            least_verify: Am13e230x::LEAST_VERIFY,
            last_rate: Am13e230x::LAST_RATE,
            long_version: Am13e230x::LONG_VERSION,
        }
    }
}
