// Writing a reply: whole, or not at all. Each of these answers how many bytes it wrote, and not an `Option`: silence has 0 bytes too, and C
// gets the number.
ghost use Rattle.std.specs.Prelude.{◌≡◌, [], ◌∷◌, ◌+◌, ◌-◌, ◌≤◌, ◌⊎◌, length};
ghost use Rattle.std.proofs.lemmas.List.Edits.{sets};
ghost use Rattle.octets.specs.Number.{number_at};
ghost use Rattle.line.specs.declared.Reply.TheVariants.{Info};
ghost use Rattle.line.specs.Replies.{core_reply, info_of, reply_bytes, sent, sent_of};

use crate::{Reply, codes};

// Where the core of a core reply stands, and what follows the core's code.
const REPLY_CORE_AT: usize = 4;

const REST_AT: usize = 5;

// What a core reply has beside that: 0x00, a header, the length, the code, the checksum.
const REPLY_FRAME: usize = 9;

// Writes a core reply into an area that has room for it. The core is a code and what follows it.
#[tactic(auto, using(crate::proofs::ReplyLaws::core_reply_made))]
fn put_core_reply(code: u8, rest: &[u8], area: &mut [u8])
    requires { length rest.now + 9 ≤ length area.old }
    ensures { area.new ≡ sets area.old 0 (core_reply (code ∷ rest.now)) }
{
    let length = rest.len() + 1;
    let front = [
        codes::ACKNOWLEDGED,
        codes::REPLY_HEADER,
        (length % 256) as u8,
        (length / 256 % 256) as u8,
        code,
    ];
    octets::put(area, 0, &front);
    octets::put(area, REST_AT, rest);
    let sum = checksum::checksum_of(&area[REPLY_CORE_AT..REPLY_CORE_AT + length]);
    octets::put_number(area, REPLY_CORE_AT + length, 4, sum);
}

// Writes a core reply where there is room for it and it has at most 1,729 bytes.
#[tactic(auto, unfolding(crate::specs::Replies::sent_of, octets::specs::Choice::pick))]
fn write_core_reply(code: u8, rest: &[u8], area: &mut [u8]) -> usize
    ensures { sent result area.new ≡ sent_of (core_reply (code ∷ rest.now)) area.old }
{
    let count = rest.len();
    if codes::REPLY_LIMIT - REPLY_FRAME < count {
        return 0;
    }
    if area.len() < count + REPLY_FRAME {
        return 0;
    }
    put_core_reply(code, rest, area);
    count + REPLY_FRAME
}

#[tactic(auto, unfolding(crate::specs::Replies::sent_of, octets::specs::Choice::pick))]
fn write_acknowledgement(code: u8, area: &mut [u8]) -> usize
    ensures { sent result area.new ≡ sent_of (code ∷ []) area.old }
{
    let Some(first) = area.first_mut() else {
        return 0;
    };
    *first = code;
    1
}

// What the device tells of itself, in 24 bytes, or in 28 where a version has eight: 0x0100, 0x0100, the version, 0x0001, 0x06C0, 0x20000160,
// two ids. The version's bytes are those that some begin with; what is not there counts as 0. The last four of a short one are stored over.
#[tactic(auto, using(crate::proofs::ReplyLaws::info_made))]
fn info_of<const N: usize>(version: &[u8], bcr_id: u32, bsl_id: u32) -> [u8; N]
    requires { (N ≡ 24) ⊎ (N ≡ 28) }
    ensures { result ≡ info_of (N - 20) (number_at 0 (N - 20) version.now) bcr_id bsl_id }
{
    let mut info = [0; N];
    octets::put(&mut info, 0, b"\x00\x01\x00\x01");
    octets::put_number(&mut info, 4, 4, octets::number32_at(version, 0));
    octets::put_number(&mut info, 8, 4, octets::number32_at(version, 4));
    octets::put(&mut info, N - 16, b"\x01\x00\xC0\x06\x60\x01\x00\x20");
    octets::put_number(&mut info, N - 8, 4, bcr_id);
    octets::put_number(&mut info, N - 4, 4, bsl_id);
    info
}

#[tactic(auto, unfolding(crate::specs::Replies::reply_bytes))]
fn write_info(long: bool, version: &[u8], bcr_id: u32, bsl_id: u32, area: &mut [u8]) -> usize
    ensures { sent result area.new ≡ sent_of (reply_bytes (Info long bcr_id bsl_id) version.now) area.old }
{
    if long {
        return write_core_reply(
            codes::INFO_REPLY,
            &info_of::<28>(version, bcr_id, bsl_id),
            area,
        );
    }
    write_core_reply(
        codes::INFO_REPLY,
        &info_of::<24>(version, bcr_id, bsl_id),
        area,
    )
}

// Writes a reply to the start of an area and answers its size. A reply for which there is no room, or of more than
// 1,729 bytes, is not written at all, and the answer is 0.
#[tactic(auto, using(crate::proofs::ReplyLaws::nothing_sent, crate::proofs::ReplyLaws::bytes_of_word), unfolding(crate::specs::Replies::reply_bytes))]
pub fn write_reply(reply: Reply, bytes: &[u8], area: &mut [u8]) -> usize
    ensures { sent result area.new ≡ sent_of (reply_bytes reply bytes.now) area.old }
{
    match reply {
        Reply::Silence => 0,
        Reply::Acknowledged(code) => write_acknowledgement(code, area),
        Reply::Message(code) => write_core_reply(codes::MESSAGE_REPLY, &[code], area),
        Reply::Info {
            long,
            bcr_id,
            bsl_id,
        } => write_info(long, bytes, bcr_id, bsl_id, area),
        Reply::Bytes => write_core_reply(codes::READ_BACK_REPLY, bytes, area),
        Reply::Sum(sum) => write_core_reply(codes::VERIFY_REPLY, &sum.to_le_bytes(), area),
        Reply::FlashError => write_core_reply(
            codes::DETAILED_ERROR_REPLY,
            &[codes::FLASH_ERROR, codes::NO_DETAIL, codes::NO_DETAIL],
            area,
        ),
    }
}
