// The moves: an image of form 1 forth and back, what each of them refuses, and an image with a name.
use crate::answers::show_answer;
use crate::contents::show_named_image;
use crate::refusals::{show_change, show_reading};
use crate::text::show_bytes;
use settings::{Contents, Form, IMAGE_SIZE, MoveError};
use std::io;

// What a move answers, and whether the image is as it was.
fn show_move<F: FnOnce(&mut [u8]) -> Result<(), MoveError>>(
    rt: &impl Print,
    name: &str,
    image: &[u8; IMAGE_SIZE],
    by: F,
) -> io::Result<[u8; IMAGE_SIZE]>
    requires { F.IsAlwaysCallable by }
{
    let mut moved = *image;
    let answer = by(&mut moved);
    show_answer(
        rt,
        name,
        answer,
        if moved == *image {
            ", image unchanged"
        } else {
            ""
        },
    )?;
    Ok(moved)
}

// An image of form 2, and what the reader refuses of it.
fn show_form_2(rt: &impl Print, image: &[u8; IMAGE_SIZE]) -> io::Result<()> {
    show_named_image(rt, image)?;
    show_reading(rt, "form 2, read again", image)?;
    show_change(rt, "form 2 with count 6", image, 2, 6)?;
    show_change(rt, "entry 7, length 65", image, 56, 65)?;
    show_change(rt, "filler byte 198", image, 198, 0)?;
    show_change(rt, "reset mode 3", image, 108, 3)
}

// An image of form 1, moved forth and back.
pub(crate) fn show_forms(rt: &impl Print, first: &[u8; IMAGE_SIZE]) -> io::Result<()> {
    let blank = [0xFF; IMAGE_SIZE];
    let second = show_move(
        rt,
        "form 1 to form 2",
        first,
        |image| settings::to_form_2(image),
    )?;
    show_form_2(rt, &second)?;
    show_move(
        rt,
        "form 2 to form 2",
        &second,
        |image| settings::to_form_2(image),
    )?;
    let mut back = second;
    let answer = settings::to_form_1(&mut back);
    show_answer(
        rt,
        "form 2 to form 1",
        answer,
        if back == *first {
            ", the first image again"
        } else {
            ""
        },
    )?;
    show_move(
        rt,
        "form 1 to form 1",
        first,
        |image| settings::to_form_1(image),
    )?;
    show_move(
        rt,
        "blank to form 2",
        &blank,
        |image| settings::to_form_2(image),
    )?;
    show_move(
        rt,
        "blank to form 1",
        &blank,
        |image| settings::to_form_1(image),
    )?;
    Ok(())
}

// An image with a name, which form 1 has no place for.
pub(crate) fn show_name(rt: &impl Print, blank: Contents) -> io::Result<()> {
    let named = Contents {
        form: Form::Two,
        name: [0x41; 64],
        ..blank
    };
    let mut image = [0u8; IMAGE_SIZE];
    let answer = settings::write(named, &mut image);
    show_answer(rt, "with a name, form 2", answer, "")?;
    if let Ok(read) = settings::read(&image) {
        show_bytes(rt, "its name", &read.name)?;
    }
    show_move(
        rt,
        "named to form 1",
        &image,
        |image| settings::to_form_1(image),
    )?;
    Ok(())
}
