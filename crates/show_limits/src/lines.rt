// What a line tells of a call, in the order of its columns.
ghost use Rattle.std.specs.Prelude.{◌≤◌, length};

use program_io::Hex;
use session::Called;
use session_state::{Phase, Standing};
use std::io;

// So many bytes of a reply are shown; Info's has no more.
const MOST_SHOWN: usize = 33;

fn phase_name(phase: Phase) -> &'static str {
    match phase {
        Phase::Detect => "detect",
        Phase::Command {
            unlocked: false,
            ..
        } => "locked",
        Phase::Command { unlocked: true, .. } => "unlocked",
        Phase::Standby => "standby",
        Phase::Ended => "ended",
        Phase::Disabled => "disabled",
    }
}

pub(crate) fn show_standing(rt: &impl Print, standing: Standing) -> io::Result<()> {
    let name = phase_name(standing.phase);
    let sleep = standing.phase.sleep();
    let Standing {
        idle,
        wrong,
        tries,
        rate,
        ..
    } = standing;
    print!(rt; "  {name:<8}{sleep:>6}{idle:>6}{wrong:>6}{tries:>6}{rate:>6}")
}

// How many bytes are 0xFF. By a sum and not by `filter` and `count`, which looks at one byte at a time.
fn erased(bytes: &[u8]) -> usize
    ensures { result ≤ length bytes.now }
{
    let mut count = 0;
    for byte in bytes {
        count += usize::from(*byte == 0xFF);
    }
    count
}

pub(crate) fn show_flash(rt: &impl Print, main: &[u8], image: &[u8]) -> io::Result<()> {
    print!(rt; "{:>6}{:>6}", erased(main), erased(image))
}

// The reply's size and its first bytes; no call of the stored rows is refused.
pub(crate) fn show_answer(rt: &impl Print, called: Option<Called>, area: &[u8]) -> io::Result<()> {
    let Some(called) = called else {
        return rt.println(" refused");
    };
    let size = called.size;
    let reply = Hex(octets::part_of(area, 0, size.min(MOST_SHOWN)));
    let fuse = if called.burn { ", burns its fuse" } else { "" };
    println!(rt; "{size:>6}{reply}{fuse}")
}
