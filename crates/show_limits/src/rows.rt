// A row: a name, some bytes in hexadecimal, how many bytes they make, a wait, and the line's end. The last of the bytes is taken as
// often as it takes to make so many.
ghost use Rattle.std.specs.Prelude.{◌≤◌};

pub(crate) const ROW_SIZE: usize = 74;

pub(crate) type Row = [u8; ROW_SIZE];

// Where a row has its mark, its first byte, its two numbers and its line's end.
const MARK_AT: usize = 31;

const BYTES_AT: usize = 32;

const COUNT_AT: usize = 62;

const WAIT_AT: usize = 68;

pub(crate) const LINE_END_AT: usize = 73;

// There is room for so many bytes.
const MOST_BYTES: usize = 10;

// What a digit stands for, decimal or hexadecimal; a space stands for 0. The digits from 0 on begin at 0x30, those from A on at 0x41.
// by hand: a row may have any bytes for digits, and std would refuse them
fn digit_value(digit: u8) -> u8
    ensures { result ≤ 42 }
{
    digit % 16 + 9 * (digit / 64)
}

// Five digits, or spaces and fewer digits.
fn number_at(row: &Row, at: usize) -> u32
    requires { at ≤ 68 }
    ensures { result ≤ 1000000 }
{
    10000 * u32::from(digit_value(row[at]))
        + 1000 * u32::from(digit_value(row[at + 1]))
        + 100 * u32::from(digit_value(row[at + 2]))
        + 10 * u32::from(digit_value(row[at + 3]))
        + u32::from(digit_value(row[at + 4]))
}

pub(crate) fn count_in(row: &Row) -> u32
    ensures { result ≤ 1000000 }
{
    number_at(row, COUNT_AT)
}

pub(crate) fn wait_in(row: &Row) -> u32 {
    number_at(row, WAIT_AT)
}

// The row of a board has the names of the two columns where the others have their numbers.
pub(crate) fn is_board(row: &Row) -> bool {
    row[COUNT_AT] == b'c'
}

// Whether the bytes are a packet as it stands, and no core.
pub(crate) fn is_packet(row: &Row) -> bool {
    row[MARK_AT] == b'='
}

pub(crate) fn has_bytes(row: &Row) -> bool {
    row[BYTES_AT] != b' '
}

// The byte at a place, or where none stands there the one before it.
fn byte_in(row: &Row, i: usize, before: u8) -> u8 {
    if MOST_BYTES <= i {
        return before;
    }
    let at = BYTES_AT + 3 * i;
    if row[at] == b' ' {
        return before;
    }
    digit_value(row[at])
        .wrapping_mul(16)
        .wrapping_add(digit_value(row[at + 1]))
}

// Fills an area with the bytes of a row.
pub(crate) fn put_bytes(row: &Row, area: &mut [u8]) {
    let mut before = 0;
    for (i, byte) in area.iter_mut().enumerate() {
        before = byte_in(row, i, before);
        *byte = before;
    }
}
