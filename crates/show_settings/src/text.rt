// The lines of the program: a name that ends in the same column, and what is told of it.
use program_io::Hex;
use std::io;

pub(crate) fn show_number(rt: &impl Print, name: &str, number: u32) -> io::Result<()> {
    println!(rt; "{name:>21}: {number}")
}

pub(crate) fn show_bytes(rt: &impl Print, name: &str, bytes: &[u8]) -> io::Result<()> {
    println!(rt; "{name:>21}:{}", Hex(bytes))
}
