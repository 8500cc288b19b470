// The settings image of the larger part: one sector, with a form 2 of its own in the first half and 0xFF in the second.
#![tactic(auto)]

mod checks;
mod layout;
mod presets;
mod reader;
mod writer;

pub use reader::{read, read_settings};
use settings::ImageContents;
pub use writer::write;

// What an image holds. There is form 2 alone.
pub type LargeContents = ImageContents<32>;

// Why the writer refuses.
#[derive(Clone, Copy, Debug, PartialEq, Eq)]
pub enum LargeWriteError {
    SizeWrong,
    FormUnknown,
    ValueNotAllowed,
}

// The size of an image.
pub const IMAGE_SIZE: usize = 2048;

// Where the bodies begin, and the name among them.
const BODIES_AT: usize = 60;

const NAME_AT: usize = BODIES_AT + settings::KEPT_SIZE;
