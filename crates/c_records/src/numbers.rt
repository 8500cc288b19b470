// The numbers that C is answered with: one comes back from each call that can be refused. docs/RECORD.md says the same in words.
ghost use Rattle.std.specs.Prelude.{◌≡◌};
ghost use Rattle.settings.specs.Answers.{refusal_numbered};
ghost use Rattle.c_records.specs.OneNumber.{refusal_of};

use crate::{FORM_UNKNOWN, REFUSAL_UNIT, SETTINGS_SIZE_WRONG, VALUE_NOT_ALLOWED};
use settings::Refusal;

// The refusals of an image that are refusals of nothing else.
const CHECKSUM_DIFFERS: u64 = 4 * REFUSAL_UNIT;

const ENTRY_DIFFERS: u64 = 6 * REFUSAL_UNIT;

const FILLER_DIFFERS: u64 = 7 * REFUSAL_UNIT;

// The one number of a refusal, of whichever call.
#[derive(Clone, Copy, Debug, PartialEq, Eq)]
pub(crate) struct Number {
    pub(crate) value: u64,
}

// An entry goes below its refusal.
impl From<Refusal> for Number {
    ghost from_gives = { λ refusal number. number.value ≡ refusal_of (refusal_numbered refusal) };

    #[tactic(auto, unfolding(octets::specs::Choice::pick))]
    fn from(refusal: Refusal) -> Number {
        let value = match refusal {
            Refusal::SizeWrong => SETTINGS_SIZE_WRONG,
            Refusal::ChecksumDiffers => CHECKSUM_DIFFERS,
            Refusal::FormUnknown => FORM_UNKNOWN,
            Refusal::EntryDiffers(entry) => ENTRY_DIFFERS + u64::from(entry),
            Refusal::FillerDiffers => FILLER_DIFFERS,
            Refusal::ValueNotAllowed => VALUE_NOT_ALLOWED,
        };
        Number { value }
    }
}

// What comes back where an image is refused; an entry goes below its refusal.
pub fn of_refusal(refusal: Refusal) -> u64
    ensures { result ≡ refusal_of (refusal_numbered refusal) }
{
    Number::from(refusal).value
}
