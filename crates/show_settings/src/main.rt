// Shows the settings reader, the writer and the moves at work: a blank image, the image that is written of its contents, each refusal, and
// images of both forms.
#![tactic(auto)]

mod answers;
mod contents;
mod moves;
mod refusals;
mod text;

use answers::show_answer;
use settings::{Contents, IMAGE_SIZE};
use std::io;

fn show_written(rt: &impl Print, contents: Contents) -> io::Result<[u8; IMAGE_SIZE]> {
    let mut image = [0u8; IMAGE_SIZE];
    show_answer(
        rt,
        "its contents written",
        settings::write(contents, &mut image),
        "",
    )?;
    contents::show_image(rt, &image)?;
    Ok(image)
}

fn main(rt: HostRuntime) -> io::Result<()> {
    let reading = settings::read(&[0xFF; IMAGE_SIZE]);
    show_answer(&rt, "blank image", reading, "")?;
    // a blank image is accepted
    let Ok(blank) = reading else {
        return Ok(());
    };
    contents::show_contents(&rt, blank)?;
    let image = show_written(&rt, blank)?;
    refusals::show_reader(&rt, &image)?;
    refusals::show_writer(&rt, blank)?;
    moves::show_forms(&rt, &image)?;
    moves::show_name(&rt, blank)
}
