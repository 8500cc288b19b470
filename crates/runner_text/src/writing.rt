// Writing a line: whole, or not at all.
ghost use Rattle.std.specs.Prelude.{◌≡◌, ◌+◌, ◌≤◌, ltb, length};
ghost use Rattle.std.proofs.lemmas.List.Edits.{sets};
ghost use Rattle.runner_text.specs.Writing.{reply_text, text_size, line_of, written, written_of};

// A reply as text: a dash where it has no bytes. Answers the place after it.
#[tactic(auto, unfolding(crate::specs::Writing::reply_text, octets::specs::Choice::pick))]
fn put_reply(area: &mut [u8], at: usize, reply: &[u8]) -> usize
    requires { at + text_size (length reply.now) ≤ length area.old }
    ensures { (result ≡ at + text_size (length reply.now)) × (area.new ≡ sets area.old at (reply_text reply.now)) }
{
    if reply.is_empty() {
        octets::put(area, at, b" -");
        return at + 2;
    }
    octets::put_hex(area, at, reply);
    at + 3 * reply.len()
}

// Whether an area of so many bytes has no room for a line with so many digits and so many bytes of a reply.
#[tactic(auto, unfolding(octets::specs::Choice::pick))]
fn is_too_small(size: usize, digits: usize, count: usize) -> bool
    requires { digits ≤ 10 }
    ensures { result ≡ ltb size (digits + text_size count + 1) }
{
    if count == 0 {
        return size < digits + 3;
    }
    octets::room(size, digits + 1) / 3 < count
}

// Writes the line of an entry to the start of an area and answers its size: the entry's number, which begins at 1, and the reply
// in hex, or a dash. Where there is no room for the whole line nothing is written, and the answer is 0.
// by hand: a `Display` writes on until there is no room, and neither a reply nor an area has a largest size here
pub fn write_line(number: u8, reply: &[u8], area: &mut [u8]) -> usize
    ensures { written result area.new ≡ written_of (line_of number reply.now) area.old }
{
    let number = u32::from(number);
    let count = octets::digits_in(number);
    if is_too_small(area.len(), count, reply.len()) {
        return 0;
    }
    octets::put_decimal(area, 0, number);
    let end = put_reply(area, count, reply);
    octets::put(area, end, b"\n");
    end + 1
}
