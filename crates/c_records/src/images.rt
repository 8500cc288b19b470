// The settings image from C.
ghost use Rattle.std.specs.Prelude.{◌≡◌};
ghost use Rattle.c_records.specs.Stored.{stored};
ghost use Rattle.c_records.specs.SettingsFromC.{read_from_c, write_from_c, to_one_from_c, to_two_from_c};

use crate::numbers::Number;
use crate::{
    FIELDS_AREA_SIZE, FORM_UNKNOWN, RECORD_NOT_VALID, SETTINGS_SIZE_WRONG, VALUE_NOT_ALLOWED,
    fields, settings_answers,
};

// Reads a settings image, and stores its fields.
#[tactic(auto, using(crate::proofs::FieldsLaws::fields_stored, settings::proofs::BodyLaws::length_bodies, settings::proofs::ReaderLaws::refuses), unfolding(crate::specs::FieldsArea::fields_of, crate::specs::Stored::stored_by, octets::specs::Choice::pick))]
pub fn read_image(image: &[u8], fields: &mut [u8]) -> u64
    ensures { stored result fields.new ≡ read_from_c image.now fields.old }
{
    match settings::read(image) {
        Ok(_) if fields.len() != FIELDS_AREA_SIZE => RECORD_NOT_VALID,
        Ok(contents) => {
            fields::put_contents(fields, contents);
            0
        }
        Err(refusal) => Number::from(refusal).value,
    }
}

// Writes the settings image of some fields.
#[tactic(auto, unfolding(crate::specs::SettingsFromC::write_from_c, octets::specs::Choice::pick))]
pub fn write_image(fields: &[u8], image: &mut [u8]) -> u64
    ensures { stored result image.new ≡ write_from_c fields.now image.old }
{
    if image.len() != settings::IMAGE_SIZE {
        return SETTINGS_SIZE_WRONG;
    }
    let Ok(fields) = <&[u8; FIELDS_AREA_SIZE]>::try_from(fields) else {
        return RECORD_NOT_VALID;
    };
    let Ok(contents) = fields::contents_in(fields) else {
        return FORM_UNKNOWN;
    };
    if octets::byte_at(fields, settings::ZERO_AT) != 0 {
        return VALUE_NOT_ALLOWED;
    }
    match settings::write(contents, image) {
        Ok(()) => 0,
        Err(error) => Number::from(error).value,
    }
}

// Moves a settings image to the other form, where it lies. What a move answers is a value, which `of_move` takes: no closure is needed.
pub fn move_to_form_2(image: &mut [u8]) -> u64
    ensures { stored result image.new ≡ to_two_from_c image.old }
{
    settings_answers::of_move(settings::to_form_2(image))
}

pub fn move_to_form_1(image: &mut [u8]) -> u64
    ensures { stored result image.new ≡ to_one_from_c image.old }
{
    settings_answers::of_move(settings::to_form_1(image))
}
