// Writing an image: bodies and name in this part's layout.
ghost use Rattle.std.specs.Prelude.{◌≡◌, length};
ghost use Rattle.settings.specs.Kept.{kept_bodies};
ghost use Rattle.settings.specs.Answers.{write_left};
ghost use Rattle.settings_large.specs.Image.{image_with};
ghost use Rattle.settings_large.specs.Writer.{write_number, write_of};

use crate::layout::Larger;
use crate::{IMAGE_SIZE, LargeContents, LargeWriteError};
use settings::{Form, KEPT_SIZE, Kept};

#[tactic(auto, using(settings::proofs::BodyLaws::length_kept, crate::proofs::LargeLaws::image_made))]
fn put_image(image: &mut [u8], kept: Kept, name: &[u8; 64])
    requires { length image.old ≡ 2048 }
    ensures { image.new ≡ image_with (kept_bodies kept) name.now }
{
    let mut bodies = [0u8; KEPT_SIZE];
    settings::put_kept(&mut bodies, 0, kept);
    settings::put_laid_out::<Larger>(image, &bodies, name);
}

// Writes the image of some contents into a lent area, or refuses and leaves every byte.
#[tactic(auto, unfolding(crate::specs::Writer::write_of, crate::specs::Image::image_of, octets::specs::Choice::pick))]
pub fn write(contents: LargeContents, image: &mut [u8]) -> Result<(), LargeWriteError>
    ensures { write_left (write_number result) image.new ≡ write_of contents image.old }
{
    if image.len() != IMAGE_SIZE {
        return Err(LargeWriteError::SizeWrong);
    }
    if matches!(contents.form, Form::One) {
        return Err(LargeWriteError::FormUnknown);
    }
    let kept = contents.settings;
    if !settings::are_allowed(kept.shown) {
        return Err(LargeWriteError::ValueNotAllowed);
    }
    let name = contents.name;
    put_image(image, kept, &name);
    Ok(())
}
