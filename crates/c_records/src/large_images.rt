// The settings image of the larger part from C. By itself: its size, form, reader and writer
// are the part's own, and one function for both would be handed all four.
ghost use Rattle.std.specs.Prelude.{◌≡◌};
ghost use Rattle.c_records.specs.Stored.{stored};
ghost use Rattle.c_records.specs.LargeFromC.{read_large_from_c, write_large_from_c};

use crate::numbers::Number;
use crate::{
    FORM_UNKNOWN, LARGE_AREA_SIZE, LARGE_FORM_AT, RECORD_NOT_VALID, SETTINGS_SIZE_WRONG,
    VALUE_NOT_ALLOWED, large_fields,
};

// The one form's number, as C has it.
const FORM: u16 = 2;

// Reads a settings image, and stores its fields.
#[tactic(auto, using(crate::proofs::FieldsLaws::fields_stored, settings::proofs::BodyLaws::length_kept, settings::proofs::ReaderLaws::refuses), unfolding(crate::specs::LargeFromC::large_fields_of, crate::specs::Stored::stored_by, octets::specs::Choice::pick))]
pub fn read_large_image(image: &[u8], fields: &mut [u8]) -> u64
    ensures { stored result fields.new ≡ read_large_from_c image.now fields.old }
{
    match settings_large::read(image) {
        Ok(_) if fields.len() != LARGE_AREA_SIZE => RECORD_NOT_VALID,
        Ok(contents) => {
            large_fields::put_contents(fields, contents);
            0
        }
        Err(refusal) => Number::from(refusal).value,
    }
}

// Writes the settings image of some fields.
#[tactic(auto, unfolding(crate::specs::LargeFromC::write_large_from_c, octets::specs::Choice::pick))]
pub fn write_large_image(fields: &[u8], image: &mut [u8]) -> u64
    ensures { stored result image.new ≡ write_large_from_c fields.now image.old }
{
    if image.len() != settings_large::IMAGE_SIZE {
        return SETTINGS_SIZE_WRONG;
    }
    let Ok(fields) = <&[u8; LARGE_AREA_SIZE]>::try_from(fields) else {
        return RECORD_NOT_VALID;
    };
    if octets::number16_at(fields, LARGE_FORM_AT) != FORM {
        return FORM_UNKNOWN;
    }
    if octets::byte_at(fields, settings::ZERO_AT) != 0 {
        return VALUE_NOT_ALLOWED;
    }
    match settings_large::write(large_fields::contents_in(fields), image) {
        Ok(()) => 0,
        Err(error) => Number::from(error).value,
    }
}
