// The values of body 3 that are allowed.
ghost use Rattle.std.specs.Prelude.{◌≡◌};
ghost use Rattle.settings.specs.Values.{is_allowed};

use crate::Shown;

// Whether reset mode, alert and settings protection have values that 01 names; any readout is kept.
#[tactic(auto, unfolding(crate::specs::Values::is_allowed, octets::specs::Choice::pick))]
pub fn are_allowed(shown: Shown) -> bool
    ensures { result ≡ is_allowed shown }
{
    shown.reset_mode <= 2 && shown.alert <= 2 && shown.settings_protected <= 1
}
