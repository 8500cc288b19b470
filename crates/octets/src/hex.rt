// Bytes as text: a space and two hexadecimal digits for each.
ghost use Rattle.std.specs.Prelude.{◌≡◌, ◌<◌};
ghost use Rattle.std.proofs.lemmas.List.Edits.{sets};
ghost use Rattle.octets.specs.Hex.{digit, text_of, hex_of};

use crate::{reading, storing};

// The digit that stands for a number.
#[tactic(auto, unfolding(crate::specs::Hex::digit, crate::specs::Choice::pick))]
fn digit_of(number: u8) -> u8
    requires { number < 16 }
    ensures { result ≡ digit number }
{
    if number < 10 {
        return b'0' + number;
    }
    b'A' - 10 + number
}

fn text_of(byte: u8) -> [u8; 3]
    ensures { result ≡ text_of byte }
{
    [b' ', digit_of(byte / 16), digit_of(byte % 16)]
}

// Stores the text of one byte from a place on, as much as there is room for. Where it fits whole, its end is looked for once.
fn put_text(area: &mut [u8], at: usize, byte: u8)
    ensures { area.new ≡ sets area.old at (text_of byte) }
{
    let text = text_of(byte);
    if 3 <= reading::room(area.len(), at) {
        area[at] = text[0];
        area[at + 1] = text[1];
        area[at + 2] = text[2];
        return;
    }
    storing::put(area, at, &text);
}

// Stores the text of some bytes from a place on, as much as there is room for.
pub fn put_hex(area: &mut [u8], at: usize, bytes: &[u8])
    ensures { area.new ≡ sets area.old at (hex_of bytes.now) }
{
    // One more than fit whole: the last is stored as far as there is room.
    let count = reading::least(bytes.len(), reading::room(area.len(), at) / 3 + 1);
    for (i, byte) in bytes[..count].iter().enumerate() {
        put_text(area, at + 3 * i, *byte);
    }
}
