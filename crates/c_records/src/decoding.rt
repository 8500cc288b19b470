// Bytes as a session, and which bytes are a record's.
ghost use Rattle.std.specs.Prelude.{◌≡◌};
ghost use Rattle.c_records.specs.Records.{record_size, phase_in, standing_in, session_in, phase_fits, is_record_area};

use crate::{
    FIELDS_AT, IDLE_AT, LARGE_RECORD_SIZE, MAIN_SIZE_AT, RECORD_SIZE, SLEEP_AT, TRIES_AT, ZERO_AT,
};
use parts::Part;
use session::Session;
use session_state::{Phase, Standing};

#[tactic(auto, unfolding(crate::specs::Records::phase_in, octets::specs::Choice::pick))]
fn phase_in(code: u8, unlocked: bool, sleep: u32) -> Phase
    ensures { result ≡ phase_in code unlocked sleep }
{
    match code {
        0 => Phase::Detect,
        1 => Phase::Command { unlocked, sleep },
        2 => Phase::Standby,
        3 => Phase::Ended,
        _ => Phase::Disabled,
    }
}

#[tactic(auto, unfolding(crate::specs::Records::standing_in))]
fn standing_in(area: &[u8]) -> Standing
    ensures { result ≡ standing_in area.now }
{
    let unlocked = octets::byte_at(area, 1) == 1;
    let sleep = octets::number32_at(area, SLEEP_AT);
    let phase = phase_in(octets::byte_at(area, 0), unlocked, sleep);
    Standing {
        phase,
        idle: octets::number32_at(area, IDLE_AT),
        wrong: octets::byte_at(area, 2),
        rate: octets::byte_at(area, 3),
        tries: octets::number32_at(area, TRIES_AT),
    }
}

// The session that an area says.
#[tactic(auto, unfolding(crate::specs::Records::session_in))]
pub(crate) fn session_in(area: &[u8]) -> Session
    ensures { result ≡ session_in area.now }
{
    let fields = octets::part_of(area, FIELDS_AT, settings::KEPT_SIZE);
    Session {
        standing: standing_in(area),
        main_size: octets::number32_at(area, MAIN_SIZE_AT),
        settings: settings::read_kept(fields),
    }
}

// Lock and sleep are there in the command phase alone.
#[tactic(auto, unfolding(crate::specs::Records::phase_fits, octets::specs::Choice::pick))]
fn phase_fits(code: u8, lock: u8, sleep: u32) -> bool
    ensures { result ≡ phase_fits code lock sleep }
{
    match code {
        1 => lock <= 1,
        0..=4 => lock == 0 && sleep == 0,
        _ => false,
    }
}

// How many bytes a record has on this part.
#[tactic(auto, unfolding(crate::specs::Records::record_size, octets::specs::Choice::pick))]
pub(crate) fn record_size(part: Part) -> usize
    ensures { result ≡ record_size part }
{
    if part.settings_size as usize == settings_large::IMAGE_SIZE {
        return LARGE_RECORD_SIZE;
    }
    RECORD_SIZE
}

// Whether an area is a record's on this part, as far as only bytes can break it.
#[tactic(auto, unfolding(crate::specs::Records::is_record_area, octets::specs::Choice::pick))]
pub(crate) fn is_record_area(part: Part, area: &[u8]) -> bool
    ensures { result ≡ is_record_area part area.now }
{
    // the size by itself: in one expression with the bytes they are read before it, in every call
    if area.len() != record_size(part) {
        return false;
    }
    let sleep = octets::number32_at(area, SLEEP_AT);
    phase_fits(octets::byte_at(area, 0), octets::byte_at(area, 1), sleep)
        && octets::byte_at(area, ZERO_AT) == 0
}
