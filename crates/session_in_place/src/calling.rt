// One call of a session, whose record is lent.
ghost use Rattle.std.specs.Prelude.{◌≡◌};
ghost use Rattle.parts.specs.Parts.{mspm0};
ghost use Rattle.flash.specs.Memory.{memory};
ghost use Rattle.session.specs.CallAnswers.{left};
ghost use Rattle.session.specs.Calling.{call_of};
ghost use Rattle.session_in_place.specs.Calling.{done_told};

use crate::Done;
use session::{CallError, Session};

// The loader's call; the record becomes the session for the next call. A refused call leaves it as it was.
pub fn call(
    session: &mut Session,
    main: &mut [u8],
    image: &mut [u8],
    window: &mut [u8],
    wait: u32,
    packet: &[u8],
    area: &mut [u8],
) -> Result<Done, CallError>
    ensures { left (done_told result) session.new (memory main.new image.new window.new) area.new ≡ call_of mspm0 session.old (memory main.old image.old window.old) wait packet.now area.old }
{
    let called = mspm0::call(*session, main, image, window, wait, packet, area)?;
    *session = called.session;
    Ok(Done {
        size: called.size,
        burn: called.burn,
    })
}
