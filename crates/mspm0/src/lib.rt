// The loader of the MSPM0: a session of one of its boards, and each call of it. Each is the function of `session` on this part's numbers, under a name
// that programs call.
#![tactic(auto)]

ghost use Rattle.std.specs.Prelude.{◌≡◌};
ghost use Rattle.parts.specs.Parts.{mspm0};
ghost use Rattle.flash.specs.Memory.{memory};
ghost use Rattle.session.specs.Starting.{start_told, start_of};
ghost use Rattle.session.specs.CallAnswers.{call_left};
ghost use Rattle.session.specs.Calling.{call_of};

use parts::Mspm0;
use session::{CallError, Called, Session, StartError};

// Starts a session on a board: its fuse, its MAIN flash, its settings flash and its SRAM window, of which the size alone is looked at.
pub fn start(fuse: bool, main: &[u8], image: &[u8], window: &[u8]) -> Result<Session, StartError>
    ensures { start_told result ≡ start_of mspm0 fuse main.now image.now window.now }
{
    session::start(Mspm0::part(), fuse, main, image, window)
}

// A call: so many milliseconds after the one before came a packet, perhaps empty. The reply is written to the start of the area.
// A call that is refused changes nothing, and leaves the session that was given.
pub fn call(
    session: Session,
    main: &mut [u8],
    image: &mut [u8],
    window: &mut [u8],
    wait: u32,
    packet: &[u8],
    area: &mut [u8],
) -> Result<Called, CallError>
    ensures { call_left session result (memory main.new image.new window.new) area.new ≡ call_of mspm0 session (memory main.old image.old window.old) wait packet.now area.old }
{
    session::call(
        Mspm0::part(),
        session,
        main,
        image,
        window,
        wait,
        packet,
        area,
    )
}
