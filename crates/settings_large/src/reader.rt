// Reading an image: what its bodies say, or why it is refused.
ghost use Rattle.std.specs.Prelude.{◌≡◌};
ghost use Rattle.settings.specs.Answers.{settings_told};
ghost use Rattle.settings_large.specs.Contents.{kept_in, contents_in};
ghost use Rattle.settings_large.specs.Reader.{read_told, settings_only, read_of};

use crate::{BODIES_AT, IMAGE_SIZE, LargeContents, NAME_AT, checks, presets};
use settings::{Form, KEPT_SIZE, Kept, Refusal};

#[tactic(auto, using(crate::proofs::LargeLaws::kept_there))]
fn kept_in(image: &[u8; IMAGE_SIZE]) -> Kept
    ensures { result ≡ kept_in image.now }
{
    settings::read_kept(octets::part_of(image, BODIES_AT, KEPT_SIZE))
}

// What a written image holds.
#[tactic(auto, unfolding(settings::specs::Layout::offset_of, settings::specs::Layout::sum_of))]
fn contents_in(image: &[u8; IMAGE_SIZE]) -> LargeContents
    ensures { result ≡ contents_in image.now }
{
    LargeContents {
        form: Form::Two,
        settings: kept_in(image),
        name: octets::array_at(image, NAME_AT),
    }
}

// Two functions beside those for an MSPM0: size, blank image and places are this part's own.

// Reads an image: the first refusal that applies, or all that it holds.
#[tactic(auto, unfolding(crate::specs::Reader::read_of, crate::specs::Reader::checked_of, octets::specs::Choice::pick))]
pub fn read(image: &[u8]) -> Result<LargeContents, Refusal>
    ensures { read_told result ≡ read_of image.now }
{
    let Ok(image) = <&[u8; IMAGE_SIZE]>::try_from(image) else {
        return Err(Refusal::SizeWrong);
    };
    Ok(match checks::check(image)? {
        None => presets::blank_contents(),
        Some(_) => contents_in(image),
    })
}

// Reads of an image what a session takes: the settings, without form and name.
#[tactic(auto, unfolding(crate::specs::Reader::read_of, crate::specs::Reader::checked_of, octets::specs::Choice::pick))]
pub fn read_settings(image: &[u8]) -> Result<Kept, Refusal>
    ensures { settings_told result ≡ settings_only (read_of image.now) }
{
    let Ok(image) = <&[u8; IMAGE_SIZE]>::try_from(image) else {
        return Err(Refusal::SizeWrong);
    };
    Ok(match checks::check(image)? {
        None => settings::blank_kept(),
        Some(_) => kept_in(image),
    })
}
