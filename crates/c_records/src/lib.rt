// What C calls, for any part: functions on numbers and byte areas. docs/RECORD.md has the layout of the areas; the names that C
// calls stand in a crate for each part.
#![tactic(auto)]

mod decoding;
mod encoding;
mod fields;
mod images;
mod large_fields;
mod large_images;
mod mending;
mod numbers;
mod rates;
mod session_answers;
mod sessions;
mod settings_answers;

pub use images::{move_to_form_1, move_to_form_2, read_image, write_image};
pub use large_images::{read_large_image, write_large_image};
pub use mending::mend_image;
pub use numbers::of_refusal;
pub use rates::rate_by_id;
pub use sessions::{call_record, start_record};

// The refusal is in the top byte, the burn in bit 32.
pub const REFUSAL_UNIT: u64 = 0x0100_0000_0000_0000;

pub(crate) const BURN_UNIT: u64 = 0x0000_0001_0000_0000;

// Numbers of refused calls, by themselves and not as an enum: C is answered with them, and include/bhorelmu.h has the same.
pub(crate) const FUSE_SET: u64 = REFUSAL_UNIT;

pub(crate) const MAIN_SIZE_WRONG: u64 = 2 * REFUSAL_UNIT;

pub const SETTINGS_SIZE_WRONG: u64 = 3 * REFUSAL_UNIT;

pub(crate) const FORM_UNKNOWN: u64 = 5 * REFUSAL_UNIT;

pub const VALUE_NOT_ALLOWED: u64 = 8 * REFUSAL_UNIT;

pub(crate) const REPLY_AREA_TOO_SMALL: u64 = 9 * REFUSAL_UNIT;

pub(crate) const RECORD_NOT_VALID: u64 = 10 * REFUSAL_UNIT;

pub(crate) const WINDOW_SIZE_WRONG: u64 = 11 * REFUSAL_UNIT;

pub const NAME_NOT_EMPTY: u64 = 41 * REFUSAL_UNIT;

// A session record as bytes: phase, lock, wrong count and rate id, then sleep, idle and the total of wrong passwords, which is all that a call
// can change, then the size of MAIN and the settings' fields, with the protection of all sectors at the end.
pub(crate) const RECORD_SIZE: usize = 94;

pub(crate) const LARGE_RECORD_SIZE: usize = 118;

pub(crate) const SLEEP_AT: usize = 4;

pub(crate) const IDLE_AT: usize = 8;

pub(crate) const TRIES_AT: usize = 12;

pub(crate) const MAIN_SIZE_AT: usize = 16;

pub(crate) const FIELDS_AT: usize = 20;

// The zero byte of body 3.
pub(crate) const ZERO_AT: usize = FIELDS_AT + settings::ZERO_AT;

// The fields area beside a settings image: the fields of a record, then the name and the form's number.
pub(crate) const FIELDS_AREA_SIZE: usize = FORM_AT + 2;

pub(crate) const NAME_AT: usize = settings::FIELDS_SIZE;

pub(crate) const FORM_AT: usize = NAME_AT + settings::NAME_SIZE;

// That of the larger part.
pub(crate) const LARGE_AREA_SIZE: usize = LARGE_FORM_AT + 2;

pub(crate) const LARGE_NAME_AT: usize = settings::KEPT_SIZE;

pub(crate) const LARGE_FORM_AT: usize = LARGE_NAME_AT + settings::NAME_SIZE;

// The area for the four counts of an image that is mended, two bytes for each.
pub(crate) const COUNTS_SIZE: usize = 8;
