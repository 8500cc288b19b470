// The loader of the AM13E230x: a session of one of its boards, and each call of it. Each is the function of `session` on this part's numbers, under a
// name that programs call. This part has no SRAM window: an empty one is lent.
#![tactic(auto)]

ghost use Rattle.std.specs.Prelude.{◌≡◌, []};
ghost use Rattle.parts.specs.Parts.{am13e230x};
ghost use Rattle.flash.specs.Memory.{memory};
ghost use Rattle.session.specs.Starting.{start_told, start_of};
ghost use Rattle.session.specs.CallAnswers.{call_left};
ghost use Rattle.session.specs.Calling.{call_of};

use parts::Am13e230x;
use session::{CallError, Called, Session, StartError};

// Starts a session on a board: its fuse, its MAIN flash and its settings flash.
pub fn start(fuse: bool, main: &[u8], image: &[u8]) -> Result<Session, StartError>
    ensures { start_told result ≡ start_of am13e230x fuse main.now image.now [] }
{
    let none = [0u8; 0];
    session::start(Am13e230x::part(), fuse, main, image, &none)
}

// A call: so many milliseconds after the one before came a packet, perhaps empty. The reply is written to the start of the area.
// A call that is refused changes nothing, and leaves the session that was given.
pub fn call(
    session: Session,
    main: &mut [u8],
    image: &mut [u8],
    wait: u32,
    packet: &[u8],
    area: &mut [u8],
) -> Result<Called, CallError>
    ensures { call_left session result (memory main.new image.new []) area.new ≡ call_of am13e230x session (memory main.old image.old []) wait packet.now area.old }
{
    let mut none = [0u8; 0];
    session::call(
        Am13e230x::part(),
        session,
        main,
        image,
        &mut none,
        wait,
        packet,
        area,
    )
}
