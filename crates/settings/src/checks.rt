// What an image is found to be: the refusals of document 01 in their order, in one of the forms that are taken.
ghost use Rattle.std.specs.Prelude.{◌≡◌};
ghost use Rattle.settings.specs.Layout.{layout_of};
ghost use Rattle.settings.specs.Reader.{checksum_differs, found_in, checked_written, checked_of};
ghost use Rattle.settings.specs.Layouts.{is_laid_out, rest_differs, value_wrong, checked_parts, checked_laid_out};

use crate::layouts::{First, Second};
use crate::{CHECKSUM_AT, Form, Forms, IMAGE_SIZE, ImageLayout, Refusal, VALUES_AT, places, table};

// Whether another checksum is stored than that of the bytes before it.
#[tactic(auto, unfolding(crate::specs::Reader::checksum_differs))]
fn checksum_differs(image: &[u8]) -> bool
    ensures { result ≡ checksum_differs image.now }
{
    octets::number32_at(image, CHECKSUM_AT)
        != checksum::checksum_of(octets::part_of(image, 0, CHECKSUM_AT))
}

// Whether an image begins with the layout's form and its count of entries.
#[tactic(auto, unfolding(crate::specs::Layouts::is_laid_out, crate::specs::Layout::table_of, octets::specs::Choice::pick))]
fn is_laid_out<L: ImageLayout>(image: &[u8]) -> bool
    ensures { result ≡ is_laid_out L.layout image.now }
{
    octets::number16_at(image, 0) == places::table_number::<L>(0)
        && octets::number16_at(image, 2) == places::table_number::<L>(1)
}

#[tactic(auto, unfolding(crate::specs::Reader::found_in, crate::specs::Reader::is_form, crate::specs::Layouts::is_laid_out, octets::specs::Choice::pick))]
fn find_form(forms: Forms, image: &[u8]) -> Option<Form>
    ensures { result ≡ found_in forms image.now }
{
    let one = is_laid_out::<First>(image);
    let two = is_laid_out::<Second>(image);
    match forms {
        Forms::Both | Forms::OnlyOne if one => Some(Form::One),
        Forms::Both | Forms::OnlyTwo if two => Some(Form::Two),
        _ => None,
    }
}

// Looks at all that is neither table nor body nor checksum: in the first half, and in the second where there is one.
#[tactic(auto, unfolding(crate::specs::Layouts::rest_differs, octets::specs::Choice::pick))]
fn rest_differs<L: ImageLayout>(image: &[u8]) -> bool
    ensures { result ≡ rest_differs L.layout image.now }
{
    let from = places::filler_at::<L>();
    !octets::all_are(0xFF, octets::part_of(image, from, CHECKSUM_AT - from))
        || !octets::all_are(0xFF, octets::part_of(image, IMAGE_SIZE, IMAGE_SIZE))
}

// Looks at body 3: a value that is not allowed, or a last byte that is not 0.
#[tactic(auto, unfolding(crate::specs::Layouts::value_wrong, crate::specs::Values::is_allowed, crate::specs::Bodies::shown_in, octets::specs::Choice::pick))]
fn value_wrong<L: ImageLayout>(image: &[u8]) -> bool
    ensures { result ≡ value_wrong L.layout image.now }
{
    let values = octets::part_of(image, places::bodies_at::<L>() + VALUES_AT, 6);
    octets::byte_at(values, 0) > 2
        || octets::byte_at(values, 1) > 2
        || octets::byte_at(values, 4) > 1
        || octets::byte_at(values, 5) != 0
}

// Looks at all of an image that has a layout's form.
#[tactic(auto, unfolding(crate::specs::Layouts::checked_parts, octets::specs::Choice::pick))]
fn check_parts<L: ImageLayout>(image: &[u8]) -> Result<(), Refusal>
    ensures { result ≡ checked_parts L.layout image.now }
{
    if let Some(entry) = table::differing_entry::<L>(image) {
        return Err(Refusal::EntryDiffers(entry));
    }
    if rest_differs::<L>(image) {
        return Err(Refusal::FillerDiffers);
    }
    if value_wrong::<L>(image) {
        return Err(Refusal::ValueNotAllowed);
    }
    Ok(())
}

// Checks an image that has no layout but one. Its size is not looked at.
#[tactic(auto, unfolding(crate::specs::Layouts::checked_laid_out, octets::specs::Choice::pick))]
pub fn check_laid_out<L: ImageLayout>(image: &[u8]) -> Result<(), Refusal>
    ensures { result ≡ checked_laid_out L.layout image.now }
{
    if checksum_differs(image) {
        return Err(Refusal::ChecksumDiffers);
    }
    if !is_laid_out::<L>(image) {
        return Err(Refusal::FormUnknown);
    }
    check_parts::<L>(image)
}

fn check_form(form: Form, image: &[u8]) -> Result<(), Refusal>
    ensures { result ≡ checked_parts (layout_of form) image.now }
{
    match form {
        Form::One => check_parts::<First>(image),
        Form::Two => check_parts::<Second>(image),
    }
}

// Checks an image that is not blank.
#[tactic(auto, using(crate::proofs::CheckLaws::told_picks, crate::proofs::CheckLaws::rest_is_filler), unfolding(crate::specs::Reader::checked_written, crate::specs::Reader::checked_in, crate::specs::Reader::value_not_allowed, crate::specs::Layouts::checked_parts, crate::specs::Layouts::value_wrong, octets::specs::Choice::pick))]
fn check_written(forms: Forms, image: &[u8; IMAGE_SIZE]) -> Result<Option<Form>, Refusal>
    ensures { result ≡ checked_written forms image.now }
{
    if checksum_differs(image) {
        return Err(Refusal::ChecksumDiffers);
    }
    let Some(form) = find_form(forms, image) else {
        return Err(Refusal::FormUnknown);
    };
    check_form(form, image)?;
    Ok(Some(form))
}

// Checks an image, of which only some forms are taken.
#[tactic(auto, unfolding(crate::specs::Reader::checked_of, octets::specs::Choice::pick))]
pub(crate) fn check(forms: Forms, image: &[u8; IMAGE_SIZE]) -> Result<Option<Form>, Refusal>
    ensures { result ≡ checked_of forms image.now }
{
    if octets::all_are(0xFF, image) {
        return Ok(None);
    }
    check_written(forms, image)
}
