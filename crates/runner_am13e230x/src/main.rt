// The session runner of the AM13E230x: reads a script from standard input, plays it to a board of that part in memory, and prints a line for each
// entry.
// What reads, plays and prints stands in the runner of each part: a library's function has a promise, and of what
// is printed there is none to make.
#![tactic(auto)]

mod calls;

use runner_text::{LINE_SIZE, SCRIPT_LIMIT};
use session_state::Standing;
use std::io;

fn print_line(rt: &impl Print, number: u8, reply: &[u8]) -> io::Result<()> {
    let mut line = [0u8; LINE_SIZE];
    let size = runner_text::write_line(number, reply, &mut line);
    rt.write_all(octets::part_of(&line, 0, size))
}

fn print_end(rt: &impl Print, standing: Standing) -> io::Result<()> {
    let mut line = [0u8; LINE_SIZE];
    let size = runner_text::write_end(standing.phase, standing.tries, &mut line);
    rt.write_all(octets::part_of(&line, 0, size))
}

// A board with 4,096 bytes of MAIN, two sectors, and blank settings, all of it 0xFF, which start never refuses.
fn play(rt: &impl Print, script: &[u8], count: u8) -> io::Result<()> {
    let mut main = [0xFFu8; 4096];
    let mut image = [0xFFu8; 2048];
    let mut reply = [0u8; 1729];
    let Ok(mut session) = am13e230x::start(false, &main, &image) else {
        return Ok(());
    };
    for index in 0..count {
        let wait = runner_text::wait_of(script, index);
        let packet = runner_text::packet_of(script, index);
        let called = am13e230x::call(session, &mut main, &mut image, wait, packet, &mut reply);
        let left = calls::left_by(session, called);
        print_line(rt, index + 1, octets::part_of(&reply, 0, left.size))?;
        session = left.session;
    }
    print_end(rt, session.standing)
}

// One byte more is read than a script may have, so that one that is too long is seen.
fn main(rt: HostRuntime) -> io::Result<()> {
    let mut input = [0u8; SCRIPT_LIMIT + 1];
    let size = program_io::read_full(&mut rt.stdin(), &mut input)?;
    let script = &input[..size];
    let Some(count) = runner_text::read_script(script) else {
        return rt.println("bad script");
    };
    play(&rt, script, count)
}
