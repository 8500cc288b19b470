// Starting a session, into a record that is lent.
ghost use Rattle.std.specs.Prelude.{◌≡◌};
ghost use Rattle.session_in_place.specs.Starting.{start_told, start_left, start_in_place};

use session::{Session, StartError};

// The start of `mspm0`; the record becomes the session. A refused start leaves it as it was.
#[tactic(auto, using(session::proofs::StartLaws::errs), unfolding(crate::specs::Starting::start_in_place, octets::specs::Choice::pick))]
pub fn start(
    session: &mut Session,
    fuse: bool,
    main: &[u8],
    image: &[u8],
    window: &[u8],
) -> Result<(), StartError>
    ensures { start_left (start_told result) session.new ≡ start_in_place session.old fuse main.now image.now window.now }
{
    *session = mspm0::start(fuse, main, image, window)?;
    Ok(())
}
