// What an image is found to be: the refusals of document 01 in their order, with this part's limits.
ghost use Rattle.std.specs.Prelude.{◌≡◌};
ghost use Rattle.settings_large.specs.Reader.{checked_written, checked_of};

use crate::IMAGE_SIZE;
use crate::layout::Larger;
use settings::{Form, Refusal};

// Checks an image that is not blank.
#[tactic(auto, using(crate::proofs::LargeLaws::large_checked))]
fn check_written(image: &[u8]) -> Result<Option<Form>, Refusal>
    ensures { result ≡ checked_written image.now }
{
    settings::check_laid_out::<Larger>(image)?;
    Ok(Some(Form::Two))
}

// Checks an image. It is blank where both its halves are.
#[tactic(auto, unfolding(crate::specs::Reader::checked_of, octets::specs::Choice::pick))]
pub(crate) fn check(image: &[u8; IMAGE_SIZE]) -> Result<Option<Form>, Refusal>
    ensures { result ≡ checked_of image.now }
{
    if octets::all_are(0xFF, image) {
        return Ok(None);
    }
    check_written(image)
}
