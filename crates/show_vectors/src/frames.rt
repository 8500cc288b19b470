// Printed frames, made whole by their core length, and whether they check.
use arrayvec::{ArrayVec, CapacityError};
use line::{CORE_AT, FIRST_AT, LENGTH_AT, PACKET_FRAME, codes};
use std::io;

// No packet of the documents has more bytes.
pub(crate) const MOST: usize = 64;

// No printed packet is too long; one that were would be told as a failed write is.
pub(crate) fn too_long() -> io::Error {
    io::Error::other("a printed packet is too long")
}

// How many bytes there should be. The core length decides: a frame has L + 7. Where nothing is printed from its place on, there is
// no frame.
fn whole_size(printed: &[u8], at: u8) -> usize {
    let first = usize::from(at);
    if printed.len() <= first {
        return printed.len();
    }
    let length = octets::number16_at(printed, first + LENGTH_AT);
    first + usize::from(length) + PACKET_FRAME
}

// What is printed, with the frame that begins at a place made whole. For bytes that are missing the byte after the frame's code is repeated.
pub(crate) fn whole(printed: &[u8], at: u8) -> Result<ArrayVec<u8, MOST>, CapacityError> {
    let first = usize::from(at) + FIRST_AT;
    let repeated = octets::byte_at(printed, first);
    let missing = whole_size(printed, at).saturating_sub(printed.len());
    let mut bytes = ArrayVec::new();
    bytes.try_extend_from_slice(octets::part_of(printed, 0, first))?;
    bytes.try_extend_from_slice(octets::part_of(&[repeated; MOST], 0, missing))?;
    bytes.try_extend_from_slice(octets::part_of(printed, first, printed.len()))?;
    Ok(bytes)
}

// Whether a reply frame has the length that it tells, and the checksum of its core.
pub(crate) fn checks(frame: &[u8]) -> bool {
    if octets::byte_at(frame, 0) != codes::REPLY_HEADER {
        return false;
    }
    let length = usize::from(octets::number16_at(frame, LENGTH_AT));
    if frame.len() != length + PACKET_FRAME {
        return false;
    }
    let core = octets::part_of(frame, CORE_AT, length);
    octets::number32_at(frame, CORE_AT + length) == checksum::checksum_of(core)
}
