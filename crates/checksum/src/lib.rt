// The checksum of document 01: CRC32 from the seed 0xFFFFFFFF, not inverted at the end.
#![tactic(auto)]

mod half_bytes;
mod lanes;
mod short;

ghost use Rattle.std.specs.Prelude.{◌≡◌};
ghost use Rattle.checksum.specs.Checksum.{checksum_from, checksum_of};

use lanes::by_lanes;
use short::{by_bytes, by_words};

// The checksum of the bytes.
#[tactic(auto, unfolding(crate::specs::Checksum::checksum_of))]
pub fn checksum_of(bytes: &[u8]) -> u32
    ensures { result ≡ checksum_of bytes.now }
{
    checksum_from(0xFFFFFFFF, bytes)
}

// The checksum of the bytes, continued from an earlier value. Most packets have a core of one byte, and most replies of two.
pub fn checksum_from(earlier: u32, bytes: &[u8]) -> u32
    ensures { result ≡ checksum_from earlier bytes.now }
{
    match bytes.len() {
        0..=3 => by_bytes(earlier, bytes),
        4..=47 => by_words(earlier, bytes),
        _ => by_lanes(earlier, bytes),
    }
}
