// A request and its reply as printed, and what the loader makes of the request.
use crate::documents::Pair;
use crate::{boards, frames};
use line::codes;
use parts::Part;
use program_io::Hex;
use std::io;

// A request is a frame; in a reply the acknowledgement stands before it.
const REQUEST_AT: u8 = 0;

const REPLY_AT: u8 = 1;

// What is told of a printed reply: whether its frame checks. An acknowledgement alone has none.
fn check_of(reply: &[u8]) -> &'static str {
    match reply {
        [_, frame @ ..] if !frame.is_empty() => {
            if frames::checks(frame) {
                ", checks"
            } else {
                ", does not check"
            }
        }
        _ => "",
    }
}

fn verdict(same: bool) -> &'static str {
    if same {
        "answered as printed"
    } else {
        "the answer differs"
    }
}

// Sends a request to a board of a part.
fn show(rt: &impl Print, part: Part, pair: Pair) -> io::Result<()> {
    let request = pair.request;
    let packet = frames::whole(request, REQUEST_AT).map_err(|_| frames::too_long())?;
    let printed = pair.reply;
    let expected = frames::whole(printed, REPLY_AT).map_err(|_| frames::too_long())?;
    let code = line::acknowledge(part.last_rate, &packet)
        .err()
        .map_or(codes::ACKNOWLEDGED, u8::from);
    let mut area = [0; codes::REPLY_LIMIT];
    let size = boards::put_reply(part, &packet, &mut area)?;
    let reply = octets::part_of(&area, 0, size);
    print!(rt; "{}: {} of {}", pair.name, request.len(), packet.len())?;
    print!(rt; ", acknowledged{}", Hex(&[code]))?;
    print!(rt; "; reply {} of {}", printed.len(), expected.len())?;
    print!(rt; "{}; ", check_of(&expected))?;
    println!(rt;
        "{}:{}",
        verdict(octets::are_same(reply, &expected)),
        Hex(reply)
    )
}

// Sends each request of a document to a board of a part, a new one for each.
pub(crate) fn show_all(rt: &impl Print, part: Part, pairs: &[Pair]) -> io::Result<()> {
    for &pair in pairs {
        show(rt, part, pair)?;
    }
    Ok(())
}
