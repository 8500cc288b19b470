// Which session records are valid.
ghost use Rattle.std.specs.Prelude.{◌≡◌};
ghost use Rattle.session.specs.Records.{is_record};

use crate::Session;
use parts::Part;

// Whether the record is valid beside images of these sizes.
#[tactic(auto, unfolding(crate::specs::Records::is_record, octets::specs::Choice::pick))]
pub(crate) fn is_record(part: Part, session: Session, main_size: usize, image_size: usize) -> bool
    ensures { result ≡ is_record part session main_size image_size }
{
    let own_size = session.main_size as usize;
    session_state::is_valid(part.last_rate, session.standing)
        && settings::are_allowed(session.settings.shown)
        && image_size == part.settings_size as usize
        && flash::is_main_size(part, own_size)
        && main_size == own_size
}
