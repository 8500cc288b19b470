// What C calls of a session, for any part. Any area of any size has an answer, and a refusal changes no byte.
ghost use Rattle.std.specs.Prelude.{◌≡◌, ◌<◌};
ghost use Rattle.std.proofs.lemmas.List.Edits.{sets};
ghost use Rattle.flash.specs.Memory.{memory};
ghost use Rattle.c_records.specs.OneNumber.{one_number};
ghost use Rattle.c_records.specs.Stored.{stored};
ghost use Rattle.c_records.specs.Records.{standing_bytes};
ghost use Rattle.c_records.specs.Boundary.{start_from_c, called, call_from_c};

use crate::numbers::Number;
use crate::{
    RECORD_NOT_VALID, REPLY_AREA_TOO_SMALL, WINDOW_SIZE_WRONG, decoding, encoding, session_answers,
};
use line::codes;
use parts::Part;
use session::Called;

// Starts a session on a board of this part, and stores its record. Any fuse but 0 is set.
#[tactic(auto, using(crate::proofs::RecordLaws::record_stored, settings::proofs::BodyLaws::length_kept, session::proofs::StartLaws::errs), unfolding(crate::specs::Stored::stored_by, octets::specs::Choice::pick))]
pub fn start_record(
    part: Part,
    fuse: u32,
    main: &[u8],
    settings: &[u8],
    window: &[u8],
    area: &mut [u8],
) -> u64
    ensures { stored result area.new ≡ start_from_c part fuse main.now settings.now window.now area.old }
{
    match session::start(part, fuse != 0, main, settings, window) {
        Ok(_) if area.len() != decoding::record_size(part) => RECORD_NOT_VALID,
        Ok(session) => {
            encoding::put_record(area, session);
            0
        }
        Err(error) => Number::from(error).value,
    }
}

// Stores the record of a call that was not refused, and makes one number of its answer. Only how the session stands can have changed.
fn store_called(called: Called, area: &mut [u8]) -> u64
    requires { called.size < 4294967296 }
    ensures { (result ≡ one_number 0 called.burn called.size) × (area.new ≡ sets area.old 0 (standing_bytes called.session.standing)) }
{
    encoding::put_standing(area, called.session.standing);
    session_answers::done(called.burn, called.size)
}

// A call of the session whose record the area holds, on a board of this part.
#[tactic(auto, using(crate::proofs::RecordAgain::next_stored, session::proofs::CallLaws::call_size_fits, session::proofs::CallLaws::call_keeps_settings), unfolding(crate::specs::Boundary::call_from_c, octets::specs::Choice::pick))]
pub fn call_record(
    part: Part,
    area: &mut [u8],
    main: &mut [u8],
    settings: &mut [u8],
    window: &mut [u8],
    wait: u32,
    packet: &[u8],
    reply: &mut [u8],
) -> u64
    ensures { called result area.new (memory main.new settings.new window.new) reply.new ≡ call_from_c part area.old (memory main.old settings.old window.old) wait packet.now reply.old }
{
    if reply.len() < codes::REPLY_LIMIT {
        return REPLY_AREA_TOO_SMALL;
    }
    if window.len() != part.window_size as usize {
        return WINDOW_SIZE_WRONG;
    }
    if !decoding::is_record_area(part, area) {
        return RECORD_NOT_VALID;
    }
    let call = session::call(
        part,
        decoding::session_in(area),
        main,
        settings,
        window,
        wait,
        packet,
        reply,
    );
    match call {
        Ok(called) => store_called(called, area),
        Err(error) => Number::from(error).value,
    }
}
