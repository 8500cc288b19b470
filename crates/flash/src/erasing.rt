// Erasing sectors: every byte that is not protected becomes 0xFF.
ghost use Rattle.std.specs.Prelude.{◌≡◌, ◌*◌, ◌/◌, ◌<◌, length};
ghost use Rattle.flash.specs.Erasing.{erase_of, erase_all_of};

use crate::{Sectors, protection};

// Erases one sector, or as much of it as is there.
#[tactic(auto, using(crate::proofs::ErasingLaws::protected_sector_kept, crate::proofs::ErasingLaws::filled_sector_erased))]
fn erase_sector(memory: &mut [u8], sectors: Sectors<'_>, sector: usize)
    requires { (0 < sectors.size) × (sector * sectors.size < length memory.old) }
    ensures { memory.new ≡ erase_of sectors.entry.size sectors.entry.protection.now sector sector memory.old }
{
    if protection::is_protected(sectors.protection, sector) {
        return;
    }
    let start = sector * sectors.size;
    let end = start + octets::least(sectors.size, memory.len() - start);
    octets::fill(&mut memory[start..end], 0xFF);
}

// Erases the sectors from first to last, as far as the memory reaches; those that are protected keep their bytes.
#[tactic(auto, using(crate::proofs::ErasingLaws::erase_empty_sectors, crate::proofs::ErasingLaws::erase_empty_memory, crate::proofs::ErasingLaws::erase_ends_at_last_sector, crate::proofs::ErasingLaws::erase_no_sector))]
fn erase(memory: &mut [u8], sectors: Sectors<'_>, first: usize, last: usize)
    ensures { memory.new ≡ erase_of sectors.entry.size sectors.entry.protection.now first last memory.old }
{
    if sectors.size == 0 || memory.is_empty() {
        return;
    }
    let last_there = octets::least(last, (memory.len() - 1) / sectors.size);
    // by hand: the wrong program `erase_never_ends` is one that no `for` can be
    let mut sector = first;
    while sector <= last_there {
        erase_sector(memory, sectors, sector);
        sector += 1;
    }
}

// Erases the sectors from that of one place to that of another, as far as the memory reaches; those that are protected keep their bytes.
#[tactic(auto, using(crate::proofs::ErasingLaws::erase_empty_sectors))]
pub fn erase_between(memory: &mut [u8], sectors: Sectors<'_>, start: usize, end: usize)
    ensures { memory.new ≡ erase_of sectors.entry.size sectors.entry.protection.now (start / sectors.entry.size) (end / sectors.entry.size) memory.old }
{
    if sectors.size == 0 {
        return;
    }
    erase(memory, sectors, start / sectors.size, end / sectors.size);
}

// Erases every sector that is not protected.
#[tactic(auto, using(crate::proofs::ErasingLaws::erase_to_length_is_all))]
pub fn erase_all(memory: &mut [u8], sectors: Sectors<'_>)
    ensures { memory.new ≡ erase_all_of sectors.entry.size sectors.entry.protection.now memory.old }
{
    let beyond = memory.len();
    erase(memory, sectors, 0, beyond);
}
