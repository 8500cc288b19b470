// Bytes stored into a lent area: some bytes, a number, one byte everywhere.
ghost use Rattle.std.specs.Prelude.{◌≡◌, length, replicate};
ghost use Rattle.std.proofs.lemmas.List.Edits.{sets};
ghost use Rattle.octets.specs.Number.{bytes_of};

use crate::reading;

// Stores bytes from a place on, as many as there is room for. By place and not by `copy_from_slice`, which compares addresses: what is
// measured of the stack may not.
pub fn put(area: &mut [u8], at: usize, bytes: &[u8])
    ensures { area.new ≡ sets area.old at bytes.now }
{
    let count = reading::least(bytes.len(), reading::room(area.len(), at));
    for i in 0..count {
        area[at + i] = bytes[i];
    }
}

// Stores a number as so many bytes from a place on, as many as there is room for. By place and not by `to_le_bytes`: any width is taken, also
// one past its four bytes.
pub fn put_number(area: &mut [u8], at: usize, width: usize, number: u32)
    ensures { area.new ≡ sets area.old at (bytes_of width number) }
{
    let count = reading::least(width, reading::room(area.len(), at));
    let mut rest = number;
    for i in 0..count {
        area[at + i] = (rest % 256) as u8;
        rest /= 256;
    }
}

// Every byte becomes the given one.
pub fn fill(area: &mut [u8], value: u8)
    ensures { area.new ≡ replicate (length area.old) value }
{
    for byte in area.iter_mut() {
        *byte = value;
    }
}
