// Each refusal of the reader, by one change to an image that is accepted, and each of the writer.
ghost use Rattle.std.specs.Prelude.{◌<◌};

use crate::answers::show_answer;
use settings::{CHECKSUM_AT, Contents, IMAGE_SIZE};
use std::io;

// What every byte of an area is before the writer gets it.
const LENT: u8 = 0x5A;

pub(crate) fn show_reading(rt: &impl Print, name: &str, image: &[u8]) -> io::Result<()> {
    show_answer(rt, name, settings::read(image), "")
}

// One byte is changed and the checksum stored anew; the byte goes in again after that, since it may be one of the checksum's.
pub(crate) fn show_change(
    rt: &impl Print,
    name: &str,
    image: &[u8; IMAGE_SIZE],
    at: usize,
    byte: u8,
) -> io::Result<()>
    requires { at < 1024 }
{
    let mut changed = *image;
    changed[at] = byte;
    let sum = checksum::checksum_of(octets::part_of(&changed, 0, CHECKSUM_AT));
    octets::put(&mut changed, CHECKSUM_AT, &sum.to_le_bytes());
    changed[at] = byte;
    show_reading(rt, name, &changed)
}

// A line for each change: its place in the image, and the byte that goes there.
pub(crate) fn show_reader(rt: &impl Print, image: &[u8; IMAGE_SIZE]) -> io::Result<()> {
    show_reading(rt, "the image, read again", image)?;
    show_reading(rt, "area of 1023 bytes", &image[..1023])?;
    show_change(rt, "checksum byte 0", image, CHECKSUM_AT, 0)?;
    show_change(rt, "form number 2", image, 0, 2)?;
    show_change(rt, "count 7", image, 2, 7)?;
    show_change(rt, "entry 1, kind 2", image, 4, 2)?;
    show_change(rt, "entry 2, offset 85", image, 14, 85)?;
    show_change(rt, "entry 3, length 7", image, 24, 7)?;
    show_change(rt, "entry 4, zero 1", image, 34, 1)?;
    show_change(rt, "entry 5, length 260", image, 41, 1)?;
    show_change(rt, "entry 6, zero 256", image, 51, 1)?;
    show_change(rt, "filler byte 0", image, 126, 0)?;
    show_change(rt, "reset mode 3", image, 100, 3)?;
    show_change(rt, "alert 3", image, 101, 3)?;
    show_change(rt, "settings protected 2", image, 104, 2)?;
    show_change(rt, "zero byte 1", image, 105, 1)
}

// What the writer answers, and whether the area is still as lent.
fn show_writing(
    rt: &impl Print,
    name: &str,
    contents: Contents,
    area: &mut [u8],
) -> io::Result<()> {
    let answer = settings::write(contents, area);
    let is_lent = area.iter().all(|&byte| byte == LENT);
    show_answer(
        rt,
        name,
        answer,
        if is_lent { ", area unchanged" } else { "" },
    )
}

pub(crate) fn show_writer(rt: &impl Print, contents: Contents) -> io::Result<()> {
    let mut wrong = contents;
    wrong.settings.shown.reset_mode = 3;
    let mut named = contents;
    named.name[63] = 0x41;
    let mut both = wrong;
    both.name[63] = 0x41;
    let mut area = [LENT; IMAGE_SIZE];
    show_writing(rt, "writing, 1023 bytes", contents, &mut area[..1023])?;
    show_writing(rt, "writing, reset mode 3", wrong, &mut area)?;
    show_writing(rt, "writing, form 1, name", named, &mut area)?;
    show_writing(rt, "both of them", both, &mut area)
}
