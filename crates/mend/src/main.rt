// Mends a settings image: reads it from standard input, and prints how many bytes were changed, and the mended image in hex.
#![tactic(auto)]

use program_io::Hex;
use settings::IMAGE_SIZE;
use settings_mend::{Changes, MendError};
use std::io;

// The image is printed by lines of so many bytes.
const ROW: usize = 16;

fn show_changes(rt: &impl Print, changes: Changes) -> io::Result<()> {
    rt.println("bytes changed")?;
    println!(rt; "  table {}", changes.table)?;
    println!(rt; "  filler {}", changes.filler)?;
    println!(rt; "  values {}", changes.values)?;
    println!(rt; "  checksum {}", changes.checksum)
}

fn show_image(rt: &impl Print, image: &[u8]) -> io::Result<()> {
    rt.println("image")?;
    for row in image.chunks(ROW) {
        println!(rt; "{}", Hex(row))?;
    }
    Ok(())
}

// T-11: "The tool says in its output that passwords cannot be judged." Any byte can stand in one, so none can be told to be wrong.
fn say_limit(rt: &impl Print) -> io::Result<()> {
    rt.println("passwords cannot be judged")
}

// Why an image is not mended, with the number that the documents give the refusal.
fn reason(error: MendError) -> &'static str {
    match error {
        MendError::SizeWrong => "refused 3: the image has not 1,024 bytes",
        MendError::FormTwo => "refused 5: the image is damaged, and begins with form 2 and count 7",
    }
}

fn run(rt: &impl Print, image: &mut [u8]) -> io::Result<()> {
    match settings_mend::mend(image) {
        Ok(changes) => {
            show_changes(rt, changes)?;
            say_limit(rt)?;
            show_image(rt, image)
        }
        Err(error) => {
            rt.println(reason(error))?;
            say_limit(rt)
        }
    }
}

// One byte more is read than an image has, so that one that is too long is seen.
fn main(rt: HostRuntime) -> io::Result<()> {
    let mut input = [0u8; IMAGE_SIZE + 1];
    let size = program_io::read_full(&mut rt.stdin(), &mut input)?;
    run(&rt, &mut input[..size])
}
