// Bytes read: one, some, numbers of two and four, and how many there are; and multiples of a number.
ghost use Rattle.std.specs.Prelude.{◌≡◌, ◌-◌, min, replicate, get_or};
ghost use Rattle.std.proofs.lemmas.List.Edits.{sets};
ghost use Rattle.octets.specs.Number.{part, number_at, is_multiple};

use crate::storing;

// The lesser of two numbers.
pub fn least(a: usize, b: usize) -> usize
    ensures { result ≡ min a b }
{
    a.min(b)
}

// Whether a number is a multiple of a unit; of 0 there are none, where std's `is_multiple_of` takes 0 for one.
#[tactic(auto, unfolding(crate::specs::Number::is_multiple, crate::specs::Choice::pick))]
pub fn is_multiple(number: u64, unit: u64) -> bool
    ensures { result ≡ is_multiple number unit }
{
    if unit == 0 {
        return false;
    }
    number % unit == 0
}

// How many of so many bytes stand from a place on.
pub fn room(size: usize, at: usize) -> usize
    ensures { result ≡ size - at }
{
    size.saturating_sub(at)
}

// The byte at a place, 0 past the end.
pub fn byte_at(bytes: &[u8], at: usize) -> u8
    ensures { result ≡ get_or bytes.now at 0 }
{
    bytes.get(at).copied().unwrap_or(0)
}

// So many bytes from a place on, or as many as there are.
pub fn part_of(bytes: &[u8], at: usize, count: usize) -> &[u8]
    ensures { result.now ≡ part at count bytes.now }
{
    let size = bytes.len();
    let first = least(at, size);
    let end = first + least(count, size - first);
    &bytes[first..end]
}

// So many bytes from a place on, as an array; a place past the end has 0.
#[tactic(auto, using(crate::proofs::StoreLaws::stored_over_zeros))]
pub fn array_at<const N: usize>(bytes: &[u8], at: usize) -> [u8; N]
    ensures { result ≡ sets (replicate N 0) 0 (part at N bytes.now) }
{
    let found = part_of(bytes, at, N);
    if let Ok(whole) = <&[u8; N]>::try_from(found) {
        return *whole;
    }
    let mut array = [0; N];
    storing::put(&mut array, 0, found);
    array
}

// The two-byte number at a place; bytes past the end count as 0.
#[tactic(auto, using(crate::proofs::Numbers::two_in_array))]
pub fn number16_at(bytes: &[u8], at: usize) -> u16
    ensures { result ≡ number_at at 2 bytes.now }
{
    u16::from_le_bytes(array_at(bytes, at))
}

// The four-byte number at a place; bytes past the end count as 0.
#[tactic(auto, using(crate::proofs::Numbers::four_read))]
pub fn number32_at(bytes: &[u8], at: usize) -> u32
    ensures { result ≡ number_at at 4 bytes.now }
{
    u32::from_le_bytes(array_at(bytes, at))
}
