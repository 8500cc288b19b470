// Mending a settings image from C.
ghost use Rattle.std.specs.Prelude.{◌≡◌, not, eqb, Err};
ghost use Rattle.std.proofs.lemmas.List.Edits.{sets};
ghost use Rattle.octets.specs.Choice.{pick};
ghost use Rattle.settings_mend.specs.Examining.{examined_number};
ghost use Rattle.settings_mend.specs.Mending.{mend_told};
ghost use Rattle.c_records.specs.OneNumber.{refusal};
ghost use Rattle.c_records.specs.Stored.{stored};
ghost use Rattle.c_records.specs.MendFromC.{counts_of, mend_stored, mend_from_c};

use crate::numbers::Number;
use crate::{COUNTS_SIZE, FORM_UNKNOWN, RECORD_NOT_VALID, SETTINGS_SIZE_WRONG};
use settings_mend::{Changes, Examined, MendError};

impl From<MendError> for Number {
    ghost from_gives = { λ error number. number.value ≡ refusal (examined_number (Err error)) };

    #[tactic(auto, unfolding(octets::specs::Choice::pick))]
    fn from(error: MendError) -> Number {
        let value = match error {
            MendError::SizeWrong => SETTINGS_SIZE_WRONG,
            MendError::FormTwo => FORM_UNKNOWN,
        };
        Number { value }
    }
}

// What is answered where the counts have no place: the image's own refusal, if there is one.
#[tactic(auto, unfolding(octets::specs::Choice::pick))]
fn of_examined(examined: Result<Examined, MendError>) -> u64
    ensures { result ≡ pick (not (eqb (examined_number examined) 0)) (refusal (examined_number examined)) (refusal 10) }
{
    match examined {
        Ok(_) => RECORD_NOT_VALID,
        Err(error) => Number::from(error).value,
    }
}

#[tactic(auto, using(crate::proofs::CountsLaws::counts_joined))]
fn counts_of(changes: Changes) -> [u8; 8]
    ensures { result ≡ counts_of changes }
{
    let mut counts = [0u8; COUNTS_SIZE];
    octets::put_number(&mut counts, 0, 2, u32::from(changes.table));
    octets::put_number(&mut counts, 2, 2, u32::from(changes.filler));
    octets::put_number(&mut counts, 4, 2, u32::from(changes.values));
    octets::put_number(&mut counts, 6, 2, u32::from(changes.checksum));
    counts
}

// Stores the counts of an image that was not refused.
#[tactic(auto, unfolding(octets::specs::Choice::pick))]
fn store_counts(mended: Result<Changes, MendError>, area: &mut [u8]) -> u64
    ensures { stored result area.new ≡ pick (not (eqb (mend_told mended).number 0)) (stored (refusal (mend_told mended).number) area.old) (stored 0 (sets area.old 0 (counts_of (mend_told mended).changes))) }
{
    match mended {
        Ok(changes) => {
            octets::put(area, 0, &counts_of(changes));
            0
        }
        Err(error) => Number::from(error).value,
    }
}

// Mends a settings image where it lies, and stores how many bytes were changed.
#[tactic(auto, using(crate::proofs::CountsLaws::told_alone, crate::proofs::CountsLaws::stored_beside))]
pub fn mend_image(image: &mut [u8], counts: &mut [u8]) -> u64
    ensures { mend_stored result image.new counts.new ≡ mend_from_c image.old counts.old }
{
    if counts.len() != COUNTS_SIZE {
        return of_examined(settings_mend::examine(image));
    }
    store_counts(settings_mend::mend(image), counts)
}
