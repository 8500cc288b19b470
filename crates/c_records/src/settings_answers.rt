// One number for what the settings writers and the moves answer.
ghost use Rattle.std.specs.Prelude.{◌≡◌, Err};
ghost use Rattle.settings.specs.Answers.{write_number, move_numbered};
ghost use Rattle.settings_large.specs.Writer as larger;
ghost use Rattle.c_records.specs.OneNumber.{refusal, refusal_of};

use crate::numbers::Number;
use crate::{FORM_UNKNOWN, NAME_NOT_EMPTY, SETTINGS_SIZE_WRONG, VALUE_NOT_ALLOWED};
use settings::{MoveError, WriteError};
use settings_large::LargeWriteError;

impl From<WriteError> for Number {
    ghost from_gives = { λ error number. number.value ≡ refusal (write_number (Err error)) };

    #[tactic(auto, unfolding(octets::specs::Choice::pick))]
    fn from(error: WriteError) -> Number {
        let value = match error {
            WriteError::SizeWrong => SETTINGS_SIZE_WRONG,
            WriteError::ValueNotAllowed => VALUE_NOT_ALLOWED,
            WriteError::NameNotEmpty => NAME_NOT_EMPTY,
        };
        Number { value }
    }
}

impl From<LargeWriteError> for Number {
    ghost from_gives = { λ error number. number.value ≡ refusal (larger.write_number (Err error)) };

    #[tactic(auto, unfolding(octets::specs::Choice::pick))]
    fn from(error: LargeWriteError) -> Number {
        let value = match error {
            LargeWriteError::SizeWrong => SETTINGS_SIZE_WRONG,
            LargeWriteError::FormUnknown => FORM_UNKNOWN,
            LargeWriteError::ValueNotAllowed => VALUE_NOT_ALLOWED,
        };
        Number { value }
    }
}

impl From<MoveError> for Number {
    ghost from_gives = { λ error number. number.value ≡ refusal_of (move_numbered (Err error)) };

    #[tactic(auto, unfolding(octets::specs::Choice::pick))]
    fn from(error: MoveError) -> Number {
        let value = match error {
            MoveError::Image(refusal) => Number::from(refusal).value,
            MoveError::NameNotEmpty => NAME_NOT_EMPTY,
        };
        Number { value }
    }
}

// What a move answers.
#[tactic(auto, unfolding(octets::specs::Choice::pick))]
pub(crate) fn of_move(moved: Result<(), MoveError>) -> u64
    ensures { result ≡ refusal_of (move_numbered moved) }
{
    match moved {
        Ok(()) => 0,
        Err(error) => Number::from(error).value,
    }
}
