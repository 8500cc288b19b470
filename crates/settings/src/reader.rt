// Reading an image: what its bodies say, or why it is refused.
ghost use Rattle.std.specs.Prelude.{◌≡◌};
ghost use Rattle.octets.specs.Number.{part};
ghost use Rattle.settings.specs.Layout.{layout_of};
ghost use Rattle.settings.specs.Bodies.{settings_in, name_in, contents_in};
ghost use Rattle.settings.specs.Kept.{kept_of};
ghost use Rattle.settings.specs.Answers.{read_told, settings_told, settings_only};
ghost use Rattle.settings.specs.Reader.{read_of, is_accepted};

use crate::{
    Contents, FIELDS_SIZE, Form, Forms, IMAGE_SIZE, Kept, NAME_AT, NAME_SIZE, Refusal, Settings,
    checks, fields_reader, places, presets,
};

#[tactic(auto, using(crate::proofs::BodyLaws::fields_there))]
fn settings_in(form: Form, image: &[u8; IMAGE_SIZE]) -> Settings
    ensures { result ≡ settings_in (layout_of form) image.now }
{
    fields_reader::read_fields(octets::part_of(image, places::form_bodies_at(form), FIELDS_SIZE))
}

// The name that an image says; one of form 1 says none.
#[tactic(auto, unfolding(crate::specs::Layout::offset_of, crate::specs::Layout::sum_of))]
pub(crate) fn name_in(form: Form, image: &[u8; IMAGE_SIZE]) -> [u8; 64]
    ensures { result ≡ name_in form image.now }
{
    match form {
        Form::One => presets::no_name(),
        Form::Two => octets::array_at(image, NAME_AT),
    }
}

// What an image of a form holds.
fn contents_in(form: Form, image: &[u8; IMAGE_SIZE]) -> Contents
    ensures { result ≡ contents_in form image.now }
{
    let settings = settings_in(form, image);
    let name = name_in(form, image);
    Contents {
        form,
        settings,
        name,
    }
}

// Reads an image: the first refusal that applies, or all that it holds.
#[tactic(auto, unfolding(crate::specs::Reader::read_of, crate::specs::Reader::checked_of, octets::specs::Choice::pick))]
pub fn read(image: &[u8]) -> Result<Contents, Refusal>
    ensures { read_told result ≡ read_of image.now }
{
    let Ok(image) = <&[u8; IMAGE_SIZE]>::try_from(image) else {
        return Err(Refusal::SizeWrong);
    };
    Ok(match checks::check(Forms::Both, image)? {
        None => presets::blank_contents(),
        Some(form) => contents_in(form, image),
    })
}

// What a session keeps of an image of a form.
#[tactic(auto, using(crate::proofs::BodyLaws::kept_there))]
fn kept_in(form: Form, image: &[u8; IMAGE_SIZE]) -> Kept
    ensures { result ≡ kept_of (settings_in (layout_of form) image.now) }
{
    fields_reader::read_kept(octets::part_of(image, places::form_bodies_at(form), FIELDS_SIZE))
}

// Reads of an image what a session takes: the settings, without form and name.
#[tactic(auto, unfolding(crate::specs::Reader::read_of, crate::specs::Reader::checked_of, octets::specs::Choice::pick))]
pub fn read_settings(image: &[u8]) -> Result<Kept, Refusal>
    ensures { settings_told result ≡ settings_only (read_of image.now) }
{
    let Ok(image) = <&[u8; IMAGE_SIZE]>::try_from(image) else {
        return Err(Refusal::SizeWrong);
    };
    Ok(match checks::check(Forms::Both, image)? {
        None => presets::blank_kept(),
        Some(form) => kept_in(form, image),
    })
}

// Whether the reader accepts an image.
#[tactic(auto, using(crate::proofs::ReaderLaws::other_size, crate::proofs::ReaderLaws::ok_is_accepted))]
pub fn accepts(image: &[u8]) -> bool
    ensures { result ≡ is_accepted image.now }
{
    let Ok(image) = <&[u8; IMAGE_SIZE]>::try_from(image) else {
        return false;
    };
    checks::check(Forms::Both, image).is_ok()
}
