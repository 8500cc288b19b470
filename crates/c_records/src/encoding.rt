// A session as bytes.
ghost use Rattle.std.specs.Prelude.{◌≡◌};
ghost use Rattle.std.proofs.lemmas.List.Edits.{sets};
ghost use Rattle.c_records.specs.Records.{phase_code, lock_code, sleep_of, counters_bytes, standing_bytes, record_bytes};

use crate::{FIELDS_AT, IDLE_AT, MAIN_SIZE_AT, SLEEP_AT, TRIES_AT};
use session::Session;
use session_state::{Phase, Standing};

// What a phase is told by in a record. Lock and sleep are 0 outside the command phase.
#[derive(Clone, Copy, Debug, Default, PartialEq, Eq)]
struct PhaseBytes {
    code: u8,
    lock: u8,
    sleep: u32,
}

impl From<Phase> for PhaseBytes {
    ghost from_gives = { λ phase bytes. (bytes.code ≡ phase_code phase) × (bytes.lock ≡ lock_code phase) × (bytes.sleep ≡ sleep_of phase) };

    #[tactic(auto, unfolding(octets::specs::Choice::pick))]
    fn from(phase: Phase) -> PhaseBytes {
        match phase {
            Phase::Detect => PhaseBytes::default(),
            Phase::Command { unlocked, sleep } => PhaseBytes {
                code: 1,
                lock: u8::from(unlocked),
                sleep,
            },
            Phase::Standby => PhaseBytes {
                code: 2,
                ..PhaseBytes::default()
            },
            Phase::Ended => PhaseBytes {
                code: 3,
                ..PhaseBytes::default()
            },
            Phase::Disabled => PhaseBytes {
                code: 4,
                ..PhaseBytes::default()
            },
        }
    }
}

// Stores what a session counts behind the first four bytes of its record.
#[tactic(auto, using(crate::proofs::RecordLaws::counters_joined))]
fn put_counters(area: &mut [u8], sleep: u32, idle: u32, tries: u32)
    ensures { area.new ≡ sets area.old 4 (counters_bytes sleep idle tries) }
{
    octets::put_number(area, SLEEP_AT, 4, sleep);
    octets::put_number(area, IDLE_AT, 4, idle);
    octets::put_number(area, TRIES_AT, 4, tries);
}

// Stores how a session stands over the front of its record.
pub(crate) fn put_standing(area: &mut [u8], standing: Standing)
    ensures { area.new ≡ sets area.old 0 (standing_bytes standing) }
{
    let phase = PhaseBytes::from(standing.phase);
    let front = [phase.code, phase.lock, standing.wrong, standing.rate];
    octets::put(area, 0, &front);
    put_counters(area, phase.sleep, standing.idle, standing.tries);
}

// Stores a session over the front of an area: what has no room there is not stored.
#[tactic(auto, using(crate::proofs::RecordLaws::record_joined))]
pub(crate) fn put_record(area: &mut [u8], session: Session)
    ensures { area.new ≡ sets area.old 0 (record_bytes session) }
{
    let settings = session.settings;
    put_standing(area, session.standing);
    octets::put_number(area, MAIN_SIZE_AT, 4, session.main_size);
    settings::put_kept(area, FIELDS_AT, settings);
}
