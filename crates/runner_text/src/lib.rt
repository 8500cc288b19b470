// The text of the session runner: the script that it reads, and the lines that it writes.
#![tactic(auto)]

mod end_line;
mod form;
mod writing;

pub use end_line::write_end;
pub use form::{packet_of, read_script, wait_of};
pub use writing::write_line;

// The most bytes and the most entries that a script has.
pub const SCRIPT_LIMIT: usize = 65536;

pub(crate) const MOST_ENTRIES: u16 = 64;

// The longest line: a number of three digits, a reply of 1,729 bytes, three characters each, and the line's end.
pub const LINE_SIZE: usize = 5191;
