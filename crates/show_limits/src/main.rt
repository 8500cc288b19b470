// Shows the loader at work on the boards and calls of standard input: the sides of the limits in document 01, and each command as it
// is accepted and refused.
#![tactic(auto)]

mod boards;
mod lines;
mod packets;
mod rows;
mod runs;

use std::io;

// So many bytes of input are read.
const INPUT_LIMIT: usize = 32768;

fn main(rt: HostRuntime) -> io::Result<()> {
    let mut input = [0u8; INPUT_LIMIT];
    let size = program_io::read_full(&mut rt.stdin(), &mut input)?;
    rt.println(
        "A board: reset mode, alert, readout (2), settings protected, sectors protected, version pointer (4); none where it is blank.",
    )?;
    rt.println(
        "A call: the core, or with = the packet as it stands, its last byte repeated up to the count; and the wait.",
    )?;
    rt.println(
        "After it: how the session stands, how many bytes of MAIN and of the settings are FF, the reply's size and its first 33 bytes.",
    )?;
    runs::run(&rt, &input[..size])
}
