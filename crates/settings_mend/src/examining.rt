// Whether an image can be mended, and whether it needs to be.
ghost use Rattle.std.specs.Prelude.{◌≡◌};
ghost use Rattle.settings.specs.declared.Form.TheVariants.{Two};
ghost use Rattle.settings.specs.Reader.{is_form};
ghost use Rattle.settings_mend.specs.Examining.{examined_of};

use crate::{Examined, MendError};
use settings::IMAGE_SIZE;

// Whether the first four bytes read form 2 and count 7.
#[tactic(auto, unfolding(settings::specs::Reader::is_form, octets::specs::Choice::pick))]
fn is_form_2(image: &[u8]) -> bool
    ensures { result ≡ is_form Two image.now }
{
    octets::number16_at(image, 0) == 2 && octets::number16_at(image, 2) == 7
}

// Looks at an image, and changes no byte of it.
#[tactic(auto, unfolding(crate::specs::Examining::examined_of, octets::specs::Choice::pick))]
pub fn examine(image: &[u8]) -> Result<Examined, MendError>
    ensures { result ≡ examined_of image.now }
{
    if image.len() != IMAGE_SIZE {
        return Err(MendError::SizeWrong);
    }
    if settings::accepts(image) {
        return Ok(Examined::Accepted);
    }
    if is_form_2(image) {
        return Err(MendError::FormTwo);
    }
    Ok(Examined::Damaged)
}
