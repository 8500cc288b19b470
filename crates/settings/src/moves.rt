// An image moved from one form to the other, where it lies.
ghost use Rattle.std.specs.Prelude.{◌≡◌};
ghost use Rattle.octets.specs.Number.{part};
ghost use Rattle.settings.specs.Table.{bodies_at};
ghost use Rattle.settings.specs.Answers.{move_numbered, move_left};
ghost use Rattle.settings.specs.Moves.{move_of, moved_to_one, moved_to_two};

use crate::{Form, Forms, IMAGE_SIZE, MoveError, Refusal, checks, places, reader, writer};

// The six bodies that both forms have.
fn six_in(form: Form, image: &[u8; IMAGE_SIZE]) -> [u8; 74]
    ensures { result ≡ part (bodies_at form) 74 image.now }
{
    octets::array_at(image, places::form_bodies_at(form))
}

// Moves an image of the form that is taken, or refuses and leaves every byte. A blank one stays as it is. The bodies are not looked into, and
// a name wants a place in the other form.
#[tactic(auto, using(crate::proofs::PassingLaws::written_is_allowed, crate::proofs::MoveLaws::put_as_written, crate::proofs::MoveLaws::named_as_written), unfolding(crate::specs::Moves::move_of, crate::specs::Reader::checked_of, octets::specs::Choice::pick))]
fn move_to(from: Forms, to: Form, image: &mut [u8]) -> Result<(), MoveError>
    ensures { move_left (move_numbered result) image.new ≡ move_of from to image.old }
{
    let Ok(found) = <&[u8; IMAGE_SIZE]>::try_from(&*image) else {
        return Err(MoveError::Image(Refusal::SizeWrong));
    };
    let Some(form) = checks::check(from, found)? else {
        return Ok(());
    };
    let name = reader::name_in(form, found);
    if !writer::name_fits(to, &name) {
        return Err(MoveError::NameNotEmpty);
    }
    let six = six_in(form, found);
    writer::put_image(to, image, &six, &name);
    Ok(())
}

// C has a function for each way.

// Moves an image of form 1 to form 2: with a name of 0xFF.
pub fn to_form_2(image: &mut [u8]) -> Result<(), MoveError>
    ensures { move_left (move_numbered result) image.new ≡ moved_to_two image.old }
{
    move_to(Forms::OnlyOne, Form::Two, image)
}

// Moves an image of form 2 back to form 1: only where its name is all 0xFF.
pub fn to_form_1(image: &mut [u8]) -> Result<(), MoveError>
    ensures { move_left (move_numbered result) image.new ≡ moved_to_one image.old }
{
    move_to(Forms::OnlyTwo, Form::One, image)
}
