// The form of a script: a count, a wait and a length for each entry, then the packets back to back.
// An entry is told by its index, which begins at 0.
ghost use Rattle.std.specs.Prelude.{◌≡◌, ◌*◌, ◌≤◌};
ghost use Rattle.runner_text.specs.Form.{length_in, lengths_in, packet_at, wait_in, packet_in};
ghost use Rattle.runner_text.specs.Form.{script_told, script_of};

use crate::{MOST_ENTRIES, SCRIPT_LIMIT};

// Where the first wait and the first length stand, and how many bytes an entry has there.
const WAIT_AT: usize = 2;

const LENGTH_AT: usize = 6;

const ENTRY_SIZE: usize = 6;

fn length_of(script: &[u8], index: u8) -> u16
    ensures { result ≡ length_in script.now index }
{
    octets::number16_at(script, LENGTH_AT + ENTRY_SIZE * usize::from(index))
}

// How many bytes the packets of the first so many entries have together.
#[tactic(auto, unfolding(crate::specs::Form::lengths_in))]
fn lengths_of(script: &[u8], count: u8) -> usize
    ensures { (result ≡ lengths_in script.now count) × (result ≤ 65535 * count) }
{
    let mut sum: usize = 0;
    let mut index: u8 = 0;
    // by hand: the wrong program lengths_added_without_end stands on the step
    while index < count {
        sum += usize::from(length_of(script, index));
        index += 1;
    }
    sum
}

// Where an entry's packet begins.
fn packet_at(script: &[u8], index: u8) -> usize
    ensures { result ≡ packet_at script.now index }
{
    let count = usize::from(octets::number16_at(script, 0));
    WAIT_AT + ENTRY_SIZE * count + lengths_of(script, index)
}

// How many entries a script has, if it keeps the form: its size, its count and all its lengths are looked at.
#[tactic(auto, unfolding(crate::specs::Form::script_of, crate::specs::Form::keeps_form, octets::specs::Choice::pick))]
pub fn read_script(script: &[u8]) -> Option<u8>
    ensures { script_told result ≡ script_of script.now }
{
    if SCRIPT_LIMIT < script.len() {
        return None;
    }
    let entries = octets::number16_at(script, 0);
    if entries < 1 || MOST_ENTRIES < entries {
        return None;
    }
    let count = entries as u8;
    if script.len() != packet_at(script, count) {
        return None;
    }
    Some(count)
}

// The wait of an entry, in milliseconds.
pub fn wait_of(script: &[u8], index: u8) -> u32
    ensures { result ≡ wait_in script.now index }
{
    octets::number32_at(script, WAIT_AT + ENTRY_SIZE * usize::from(index))
}

// The packet of an entry, perhaps empty.
pub fn packet_of(script: &[u8], index: u8) -> &[u8]
    ensures { result.now ≡ packet_in script.now index }
{
    let at = packet_at(script, index);
    let length = usize::from(length_of(script, index));
    octets::part_of(script, at, length)
}
