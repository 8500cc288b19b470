// One number for what a start and a call answer.
ghost use Rattle.std.specs.Prelude.{◌≡◌, ◌<◌};
ghost use Rattle.c_records.specs.OneNumber.{one_number, refusal, refusal_of};
ghost use Rattle.session.specs.StartAnswers.{start_numbered};
ghost use Rattle.session.specs.CallAnswers.{call_numbered};

use crate::numbers::Number;
use crate::{
    BURN_UNIT, FUSE_SET, MAIN_SIZE_WRONG, RECORD_NOT_VALID, REPLY_AREA_TOO_SMALL, WINDOW_SIZE_WRONG,
};
use session::{CallError, StartError};

impl From<StartError> for Number {
    ghost from_gives = { λ error number. number.value ≡ refusal_of (start_numbered error) };

    #[tactic(auto, unfolding(octets::specs::Choice::pick))]
    fn from(error: StartError) -> Number {
        let value = match error {
            StartError::FuseSet => FUSE_SET,
            StartError::MainSizeWrong => MAIN_SIZE_WRONG,
            StartError::WindowSizeWrong => WINDOW_SIZE_WRONG,
            StartError::Image(refusal) => Number::from(refusal).value,
        };
        Number { value }
    }
}

impl From<CallError> for Number {
    ghost from_gives = { λ error number. number.value ≡ refusal (call_numbered error).number };

    #[tactic(auto, unfolding(octets::specs::Choice::pick))]
    fn from(error: CallError) -> Number {
        let value = match error {
            CallError::ReplyAreaTooSmall => REPLY_AREA_TOO_SMALL,
            CallError::WindowSizeWrong => WINDOW_SIZE_WRONG,
            CallError::RecordNotValid => RECORD_NOT_VALID,
        };
        Number { value }
    }
}

// A call that is not refused: the size of its reply, and whether the board is to burn its fuse. By `as`: no From goes from usize to u64.
#[tactic(auto, unfolding(octets::specs::Choice::pick))]
pub(crate) fn done(burn: bool, size: usize) -> u64
    requires { size < 4294967296 }
    ensures { result ≡ one_number 0 burn size }
{
    if burn {
        return BURN_UNIT + size as u64;
    }
    size as u64
}
