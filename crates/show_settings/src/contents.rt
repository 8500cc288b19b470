// What settings and images hold, in the order of document 01.
ghost use Rattle.std.specs.Prelude.{◌≤◌};

use crate::text::{show_bytes, show_number};
use settings::{CHECKSUM_AT, Contents, IMAGE_SIZE, Settings, Shown};
use std::io;

fn show_values(rt: &impl Print, shown: Shown) -> io::Result<()> {
    show_number(rt, "reset mode", u32::from(shown.reset_mode))?;
    show_number(rt, "alert", u32::from(shown.alert))?;
    show_number(rt, "readout", u32::from(shown.readout))?;
    show_number(
        rt,
        "settings protected",
        u32::from(shown.settings_protected),
    )?;
    show_number(rt, "BCR id", shown.bcr_id)?;
    show_number(rt, "BSL id", shown.bsl_id)?;
    show_number(rt, "version pointer", shown.version_pointer)
}

fn show_settings(rt: &impl Print, settings: Settings) -> io::Result<()> {
    show_bytes(rt, "password", &settings.password)?;
    show_bytes(rt, "reset password", &settings.reset_password)?;
    show_values(rt, settings.shown)?;
    show_bytes(rt, "protected sectors", &settings.protection)
}

pub(crate) fn show_contents(rt: &impl Print, contents: Contents) -> io::Result<()> {
    show_number(rt, "form", u32::from(u16::from(contents.form)))?;
    show_settings(rt, contents.settings)?;
    show_bytes(rt, "name", &contents.name)
}

fn show_entries(rt: &impl Print, image: &[u8; IMAGE_SIZE]) -> io::Result<()> {
    show_bytes(rt, "form and count", &image[..4])?;
    show_bytes(rt, "entry 1", &image[4..12])?;
    show_bytes(rt, "entry 2", &image[12..20])?;
    show_bytes(rt, "entry 3", &image[20..28])?;
    show_bytes(rt, "entry 4", &image[28..36])?;
    show_bytes(rt, "entry 5", &image[36..44])?;
    show_bytes(rt, "entry 6", &image[44..52])
}

fn show_bodies(rt: &impl Print, image: &[u8; IMAGE_SIZE], at: usize) -> io::Result<()>
    requires { at ≤ 60 }
{
    show_bytes(rt, "body 1", &image[at..at + 32])?;
    show_bytes(rt, "body 2", &image[at + 32..at + 48])?;
    show_bytes(rt, "body 3", &image[at + 48..at + 54])?;
    show_bytes(rt, "body 4", &image[at + 54..at + 62])?;
    show_bytes(rt, "body 5", &image[at + 62..at + 66])?;
    show_bytes(rt, "body 6", &image[at + 66..at + 74])
}

// How many of the bytes between the bodies and the checksum are 0xFF.
fn show_filler(rt: &impl Print, image: &[u8; IMAGE_SIZE], at: usize) -> io::Result<()>
    requires { at ≤ 1020 }
{
    let filler = &image[at..CHECKSUM_AT];
    let erased = filler.iter().filter(|&&byte| byte == 0xFF).count();
    println!(rt; "{:>21}: {erased}", "filler bytes FF")?;
    show_bytes(rt, "checksum", &image[CHECKSUM_AT..])
}

// An image of form 1.
pub(crate) fn show_image(rt: &impl Print, image: &[u8; IMAGE_SIZE]) -> io::Result<()> {
    show_entries(rt, image)?;
    show_bodies(rt, image, 52)?;
    show_filler(rt, image, 126)
}

// An image of form 2.
pub(crate) fn show_named_image(rt: &impl Print, image: &[u8; IMAGE_SIZE]) -> io::Result<()> {
    show_entries(rt, image)?;
    show_bytes(rt, "entry 7", &image[52..60])?;
    show_bodies(rt, image, 60)?;
    show_bytes(rt, "body 7", &image[134..198])?;
    show_filler(rt, image, 198)
}
