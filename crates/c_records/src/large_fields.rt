// The contents of the larger part's settings image as bytes, and bytes as contents. By themselves: `settings` has a writer and a reader of its own for
// the settings of each size, and a part has its own form.
ghost use Rattle.std.specs.Prelude.{◌≡◌};
ghost use Rattle.std.proofs.lemmas.List.Edits.{sets};
ghost use Rattle.c_records.specs.LargeFromC.{large_fields_of, large_contents_read};

use crate::{LARGE_AREA_SIZE, LARGE_FORM_AT, LARGE_NAME_AT};
use settings::Form;
use settings_large::LargeContents;

// Stores the fields of some contents over the front of an area.
#[tactic(auto, using(crate::proofs::FieldsLaws::fields_joined, settings::proofs::BodyLaws::length_kept), unfolding(crate::specs::LargeFromC::large_fields_of))]
pub(crate) fn put_contents(area: &mut [u8], contents: LargeContents)
    ensures { area.new ≡ sets area.old 0 (large_fields_of contents) }
{
    settings::put_kept(area, 0, contents.settings);
    octets::put(area, LARGE_NAME_AT, &contents.name);
    octets::put_number(area, LARGE_FORM_AT, 2, u32::from(u16::from(contents.form)));
}

// The contents that an area of their size says, where its form is 2.
#[tactic(auto, using(crate::proofs::FieldsLaws::large_name_taken))]
pub(crate) fn contents_in(fields: &[u8; LARGE_AREA_SIZE]) -> LargeContents
    ensures { result ≡ large_contents_read fields.now }
{
    LargeContents {
        form: Form::Two,
        settings: settings::read_kept(octets::part_of(fields, 0, LARGE_NAME_AT)),
        name: octets::array_at(fields, LARGE_NAME_AT),
    }
}
