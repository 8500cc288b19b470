// Bytes: read, compared, stored, and printed; and the numbers in them.
#![tactic(auto)]

mod comparing;
mod decimal;
mod hex;
mod reading;
mod storing;

pub use comparing::{all_are, are_same, differing};
pub use decimal::{digits_in, put_decimal};
pub use hex::put_hex;
pub use reading::{array_at, byte_at, is_multiple, least, number16_at, number32_at, part_of, room};
pub use storing::{fill, put, put_number};
