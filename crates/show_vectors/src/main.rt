// Runs every whole packet that source documents 004 and 000 print, those of 000 on a board of each part, and compares what the loader
// answers.
#![tactic(auto)]

mod boards;
mod documents;
mod frames;
mod pairs;

use documents::{FROM_000, FROM_004};
use parts::{Am13e230x, Mspm0};
use std::io;

fn main(rt: HostRuntime) -> io::Result<()> {
    rt.println("Bytes that are printed, of those that the core length asks for:")?;
    pairs::show_all(&rt, Mspm0::part(), &FROM_004)?;
    pairs::show_all(&rt, Mspm0::part(), &FROM_000)?;
    rt.println("\nOn a board of the AM13E230x:")?;
    pairs::show_all(&rt, Am13e230x::part(), &FROM_000)
}
