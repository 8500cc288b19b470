// The packet of a row.
ghost use Rattle.std.specs.Prelude.{◌≤◌};

use crate::rows::{self, Row};
use line::{CORE_AT, PACKET_FRAME, codes};

// The longest whole packet, of L 1,722, has as many bytes as the longest reply.
pub(crate) type Packet = [u8; codes::REPLY_LIMIT];

// Puts header, length and checksum around a core.
fn frame(packet: &mut Packet, count: usize)
    requires { count ≤ 1000000 }
{
    let sum = checksum::checksum_of(octets::part_of(packet, CORE_AT, count));
    let [low, high, ..] = count.to_le_bytes();
    octets::put(packet, 0, &[codes::COMMAND_HEADER, low, high]);
    octets::put(packet, CORE_AT + count, &sum.to_le_bytes());
}

// Stores the packet of a row, and answers its size, which may be more than there is room for. What the row does not fill is left as it was.
pub(crate) fn put_packet(row: &Row, packet: &mut Packet) -> usize {
    let count = rows::count_in(row) as usize;
    if rows::is_packet(row) {
        rows::put_bytes(row, &mut packet[..count.min(codes::REPLY_LIMIT)]);
        return count;
    }
    let end = (CORE_AT + count).min(codes::REPLY_LIMIT);
    rows::put_bytes(row, &mut packet[CORE_AT..end]);
    frame(packet, count);
    count + PACKET_FRAME
}
