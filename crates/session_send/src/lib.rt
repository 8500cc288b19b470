// What is sent of an answer.
#![tactic(auto)]

ghost use Rattle.std.specs.Prelude.{◌≡◌};
ghost use Rattle.line.specs.Commands.{is_silent};
ghost use Rattle.line.specs.Replies.{sent};
ghost use Rattle.flash.specs.Memory.{memory_in};
ghost use Rattle.session_send.specs.Answering.{without_core, hushed, answer_of};

use flash::{Areas, Region};
use line::{CORE_AT, Reply, codes};

// Only the 0x00 that a core reply would follow.
fn without_core(reply: Reply) -> Reply
    ensures { result ≡ without_core reply }
{
    match reply {
        Reply::Silence => Reply::Silence,
        Reply::Acknowledged(code) => Reply::Acknowledged(code),
        Reply::Message(_) => Reply::Acknowledged(codes::ACKNOWLEDGED),
        Reply::Info { .. } => Reply::Acknowledged(codes::ACKNOWLEDGED),
        Reply::Bytes => Reply::Acknowledged(codes::ACKNOWLEDGED),
        Reply::Sum(_) => Reply::Acknowledged(codes::ACKNOWLEDGED),
        Reply::FlashError => Reply::Acknowledged(codes::ACKNOWLEDGED),
    }
}

// Whether the packet's command never gets a core reply, by its command byte alone.
#[tactic(auto, unfolding(line::specs::Codes::is_one_of, octets::specs::Choice::pick))]
fn is_silent(packet: &[u8]) -> bool
    ensures { result ≡ is_silent packet.now }
{
    match octets::byte_at(packet, CORE_AT) {
        codes::CONNECT | codes::PROGRAM_FAST | codes::START | codes::RATE => true,
        _ => false,
    }
}

// A silent command gets no core reply.
#[tactic(auto, unfolding(crate::specs::Answering::hushed, octets::specs::Choice::pick))]
fn hush(packet: &[u8], reply: Reply) -> Reply
    ensures { result ≡ hushed packet.now reply }
{
    if is_silent(packet) {
        return without_core(reply);
    }
    reply
}

// Writes what is sent of a reply to the start of an area, and answers its size. The bytes that go with it are so many of a region, from a
// place on that was looked up before. A reply for which there is no room, or of more than 1,729 bytes, is not written at all, and the answer is 0.
// No Option: silence is 0 bytes too, and C gets the number as it is.
#[tactic(auto, using(crate::proofs::AnsweringLaws::silence_sends_nothing), unfolding(crate::specs::Answering::answer_of))]
pub fn answer(
    reply: Reply,
    region: Region,
    offset: usize,
    count: u32,
    packet: &[u8],
    areas: Areas<'_>,
    area: &mut [u8],
) -> usize
    ensures { sent result area.new ≡ answer_of reply region offset count packet.now (memory_in areas.entry) area.old }
{
    if let Reply::Silence = reply {
        return 0;
    }
    let told = hush(packet, reply);
    let bytes = flash::bytes_in(region, offset, count as usize, areas);
    line::write_reply(told, bytes, area)
}
