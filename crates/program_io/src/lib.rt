// What the programs share: input read whole, and bytes as text. No program allocates: each lends what it fills, so that of the C library it
// stands on reading, writing and the text of an error alone.
#![tactic(auto)]

ghost use Rattle.std.specs.Prelude.{◌≡◌, ◌<◌, ◌≤◌, length, take, IfOk, Some};
ghost use Rattle.std.specs.Io.KnownBytes.{Consumes, IsAtEnd};
ghost use Rattle.program_io.specs.Hex.{printed};

use std::io::Read;
use std::{fmt, io};

// Reads until the area is full or the stream ends, and answers how many bytes it put at the start of the area. What the area has after
// these, and what it has where a read fails, is not said.
pub fn read_full<R: Read>(input: &mut R, area: &mut [u8]) -> io::Result<usize>
    ensures { (length area.new ≡ length area.old)
        × IfOk result (λ size. (size ≤ length area.old)
        × Consumes (R.remaining input.old) (R.remaining input.new) (take size area.new)
        × (size < length area.old → IsAtEnd (R.remaining input.new))) }
{
    let mut size = 0;
    while size < area.len() {
        let count = input.read(&mut area[size..])?;
        if count == 0 {
            break;
        }
        size += count;
    }
    Ok(size)
}

// Bytes as the programs print them: a space and two hexadecimal digits for each. They may be a password, so nothing compares them.
#[derive(Clone, Copy)]
pub struct Hex<'a>(pub &'a [u8]);

impl<'a> fmt::Display for Hex<'a> {
    ghost output = { λ hex. Some (printed hex.0.now) };

    fn fmt<W: fmt::Write>(&self, f: &mut fmt::Formatter<W>) -> fmt::Result {
        for byte in self.0 {
            write!(f, " {byte:02X}")?;
        }
        Ok(())
    }
}
