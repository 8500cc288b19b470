// Programming flash: each byte that is not protected becomes old AND new.
ghost use Rattle.std.specs.Prelude.{◌≡◌, ◌+◌, ◌%◌, ◌<◌, ◌≤◌, length, get_or};
ghost use Rattle.std.specs.Int.Bits.{bit_and};
ghost use Rattle.flash.specs.Places.{by_place};
ghost use Rattle.flash.specs.Programming.{program_of};

use crate::{Sectors, protection};

// Each byte becomes its AND with the new one at its place.
fn and_into(area: &mut [u8], bytes: &[u8])
    requires { length area.old ≡ length bytes.now }
    ensures { area.new ≡ by_place (λ place old. bit_and old (get_or bytes.now place 0)) area.old }
{
    for (i, byte) in area.iter_mut().enumerate() {
        *byte &= bytes[i];
    }
}

// Programs bytes that lie in one sector.
#[tactic(auto, using(crate::proofs::ProgrammingLaws::program_protected_sector, crate::proofs::ProgrammingLaws::program_open_sector))]
fn program_sector(memory: &mut [u8], sectors: Sectors<'_>, at: usize, bytes: &[u8])
    requires { (at % sectors.size + length bytes.now ≤ sectors.size) × (at + length bytes.now ≤ length memory.old) × (0 < sectors.size) }
    ensures { memory.new ≡ program_of sectors.entry.size sectors.entry.protection.now at bytes.now memory.old }
{
    if protection::is_protected(sectors.protection, at / sectors.size) {
        return;
    }
    let end = at + bytes.len();
    and_into(&mut memory[at..end], bytes);
}

// Programs bytes from a place on, as far as the memory reaches, sector by sector; protected sectors keep their bytes.
#[tactic(auto, using(crate::proofs::ProgrammingLaws::program_empty_sectors, crate::proofs::ProgrammingLaws::program_done))]
pub fn program(memory: &mut [u8], sectors: Sectors<'_>, at: usize, bytes: &[u8])
    ensures { memory.new ≡ program_of sectors.entry.size sectors.entry.protection.now at bytes.now memory.old }
{
    if sectors.size == 0 {
        return;
    }
    let count = octets::least(bytes.len(), octets::room(memory.len(), at));
    // by hand: a step is what is left of a sector
    let mut i = 0;
    while i < count {
        let place = at + i;
        let next = i + octets::least(sectors.size - place % sectors.size, count - i);
        program_sector(memory, sectors, place, &bytes[i..next]);
        i = next;
    }
}
