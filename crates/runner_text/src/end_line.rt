// The end line of the session runner. It is written whole, or not at all.
ghost use Rattle.std.specs.Prelude.{◌≡◌, ◌++◌, ◌≤◌, length};
ghost use Rattle.octets.specs.Decimal.{decimal_of};
ghost use Rattle.runner_text.specs.Text.{text};
ghost use Rattle.runner_text.specs.Writing.{written, written_of};
ghost use Rattle.runner_text.specs.EndLine.{end_of};

use session_state::Phase;

// A line that ends with a number.
fn write_with_number(start: &[u8], number: u32, area: &mut [u8]) -> usize
    requires { length start.now ≤ 100 }
    ensures { written result area.new ≡ written_of (start.now ++ (decimal_of number ++ text "\n")) area.old }
{
    let end = start.len() + octets::digits_in(number);
    if area.len() < end + 1 {
        return 0;
    }
    octets::put(area, 0, start);
    octets::put_decimal(area, start.len(), number);
    octets::put(area, end, b"\n");
    end + 1
}

// Writes the end line, which says how the session stands at last and how many wrong passwords it has seen, as the line of an entry is written.
pub fn write_end(phase: Phase, tries: u32, area: &mut [u8]) -> usize
    ensures { written result area.new ≡ written_of (end_of phase tries) area.old }
{
    match phase {
        Phase::Detect => write_with_number(b"end detect tries ", tries, area),
        Phase::Command { unlocked: true, .. } => {
            write_with_number(b"end command unlocked tries ", tries, area)
        }
        Phase::Command {
            unlocked: false,
            ..
        } => { write_with_number(b"end command locked tries ", tries, area) }
        Phase::Standby => write_with_number(b"end standby tries ", tries, area),
        Phase::Ended => write_with_number(b"end ended tries ", tries, area),
        Phase::Disabled => write_with_number(b"end disabled tries ", tries, area),
    }
}
