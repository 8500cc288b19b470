// Writing an image: table, bodies, filler, checksum.
ghost use Rattle.std.specs.Prelude.{◌≡◌, ◌++◌, ◌-◌, ◌≤◌, length, take, replicate};
ghost use Rattle.std.proofs.lemmas.List.Edits.{sets};
ghost use Rattle.octets.specs.Number.{bytes_of};
ghost use Rattle.checksum.specs.Checksum.{checksum_of};
ghost use Rattle.settings.specs.Layout.{layout_of, checksum_at, bodies_end, table_of, pairs_of};
ghost use Rattle.settings.specs.Bodies.{name_body};
ghost use Rattle.settings.specs.Image.{filler_of, sealed, resealed};
ghost use Rattle.settings.specs.Layouts.{laid_out};
ghost use Rattle.settings.specs.Answers.{write_number, write_left};
ghost use Rattle.settings.specs.Writer.{name_fits, write_of};

use crate::layouts::{First, Second};
use crate::{
    CHECKSUM_AT, Contents, Form, IMAGE_SIZE, ImageLayout, WriteError, allowed, fields_writer,
    places, table,
};

// The filler, from where the bodies end up to the checksum. Its length is required: an array that is lent says nothing of what is written back.
fn put_filler<L: ImageLayout>(image: &mut [u8])
    requires { 1024 ≤ length image.old }
    ensures { image.new ≡ sets image.old (bodies_end L.layout) (replicate (checksum_at - bodies_end L.layout) 0xFF) }
{
    octets::fill(&mut image[places::filler_at::<L>()..CHECKSUM_AT], 0xFF);
}

// The checksum of what comes before it, as far as there is room.
fn put_checksum(image: &mut [u8])
    ensures { image.new ≡ sets image.old checksum_at (bytes_of 4 (checksum_of (take checksum_at image.old))) }
{
    let sum = checksum::checksum_of(octets::part_of(image, 0, CHECKSUM_AT));
    octets::put_number(image, CHECKSUM_AT, 4, sum);
}

// Makes the image of six bodies and a name in a layout, as far as there is room: the name ends where the bodies do, and all else is 0xFF.
#[tactic(auto, unfolding(crate::specs::Layouts::laid_out))]
pub fn put_laid_out<L: ImageLayout>(image: &mut [u8], six: &[u8], name: &[u8])
    ensures { image.new ≡ laid_out L.layout six.now name.now (length image.old) }
{
    octets::fill(image, 0xFF);
    table::put_table::<L>(image);
    octets::put(image, places::bodies_at::<L>(), six);
    let name_at = places::filler_at::<L>().saturating_sub(name.len());
    octets::put(image, name_at, name);
    put_checksum(image);
}

// Whether the form has a place for the name: form 1 has none.
#[tactic(auto, unfolding(crate::specs::Writer::name_fits))]
pub(crate) fn name_fits(form: Form, name: &[u8]) -> bool
    ensures { result ≡ name_fits form name.now }
{
    match form {
        Form::One => octets::all_are(0xFF, name),
        Form::Two => true,
    }
}

// Makes the image of six bodies and a name, in a form: form 1 leaves the name out.
#[tactic(auto, using(crate::proofs::WriterLaws::form_laid_out))]
pub(crate) fn put_image(form: Form, image: &mut [u8], six: &[u8; 74], name: &[u8; 64])
    requires { length image.old ≡ 1024 }
    ensures { image.new ≡ sealed (pairs_of (table_of (layout_of form)) ++ ((six.now ++ name_body form name.now) ++ filler_of form)) }
{
    match form {
        Form::One => put_laid_out::<First>(image, six, &[]),
        Form::Two => put_laid_out::<Second>(image, six, name),
    }
}

// Writes the image of some contents into a lent area, in their form, or refuses and leaves every byte.
#[tactic(auto, unfolding(crate::specs::Writer::write_of, octets::specs::Choice::pick, crate::specs::Image::image_of))]
pub fn write(contents: Contents, image: &mut [u8]) -> Result<(), WriteError>
    ensures { write_left (write_number result) image.new ≡ write_of contents image.old }
{
    if image.len() != IMAGE_SIZE {
        return Err(WriteError::SizeWrong);
    }
    let settings = contents.settings;
    if !allowed::are_allowed(settings.shown) {
        return Err(WriteError::ValueNotAllowed);
    }
    let form = contents.form;
    let name = contents.name;
    if !name_fits(form, &name) {
        return Err(WriteError::NameNotEmpty);
    }
    let six = fields_writer::fields_of(settings);
    put_image(form, image, &six, &name);
    Ok(())
}

// Puts table, filler and checksum of form 1 around the bodies that stand in an image, whatever they say. One of another size is left.
#[tactic(auto, using(crate::proofs::WriterLaws::resealed_made, crate::proofs::WriterLaws::resealed_size, crate::proofs::WriterLaws::sealed_made), unfolding(crate::specs::Image::resealed, octets::specs::Choice::pick))]
pub fn reseal(image: &mut [u8])
    ensures { image.new ≡ resealed image.old }
{
    if image.len() != IMAGE_SIZE {
        return;
    }
    table::put_table::<First>(image);
    put_filler::<First>(image);
    put_checksum(image);
}
