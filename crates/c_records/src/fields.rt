// The fields area beside a settings image: contents as bytes, and bytes as contents.
ghost use Rattle.std.specs.Prelude.{◌≡◌};
ghost use Rattle.std.proofs.lemmas.List.Edits.{sets};
ghost use Rattle.c_records.specs.FieldsArea.{fields_of, Says};

use crate::{FIELDS_AREA_SIZE, FORM_AT, NAME_AT};
use settings::{Contents, Form, UnknownForm};

// Stores the fields of some contents over the front of an area.
#[tactic(auto, using(crate::proofs::FieldsLaws::fields_joined, settings::proofs::BodyLaws::length_bodies), unfolding(crate::specs::FieldsArea::fields_of))]
pub(crate) fn put_contents(area: &mut [u8], contents: Contents)
    ensures { area.new ≡ sets area.old 0 (fields_of contents) }
{
    settings::put_fields(area, 0, contents.settings);
    octets::put(area, NAME_AT, &contents.name);
    octets::put_number(area, FORM_AT, 2, u32::from(u16::from(contents.form)));
}

// The contents that an area of their size says, where its number names a form.
#[tactic(auto, using(crate::proofs::FieldsLaws::name_taken, crate::proofs::FieldsLaws::form_named, crate::proofs::FieldsLaws::no_form_named))]
pub(crate) fn contents_in(fields: &[u8; FIELDS_AREA_SIZE]) -> Result<Contents, UnknownForm>
    ensures { Says fields.now result }
{
    Ok(Contents {
        form: Form::try_from(octets::number16_at(fields, FORM_AT))?,
        settings: settings::read_fields(octets::part_of(fields, 0, settings::FIELDS_SIZE)),
        name: octets::array_at(fields, NAME_AT),
    })
}
