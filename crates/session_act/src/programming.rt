// Program, and its silent twin: what they plan.
ghost use Rattle.std.specs.Prelude.{◌≡◌};
ghost use Rattle.octets.specs.Alike.{all_are};
ghost use Rattle.flash.specs.Memory.{memory_in, bytes_in};
ghost use Rattle.session_act.specs.Programming.{is_aligned, program_in, program};

use crate::{Order, Planned, Site, plans};
use flash::{Areas, Region};
use line::{Reply, codes};

// What an erase leaves.
const BLANK: u8 = 0xFF;

#[tactic(auto, unfolding(crate::specs::Programming::is_aligned, octets::specs::Choice::pick))]
fn is_aligned(word: u32, address: u32, size: u32) -> bool
    ensures { result ≡ is_aligned word address size }
{
    let word = u64::from(word);
    octets::is_multiple(u64::from(address), word) && octets::is_multiple(u64::from(size), word)
}

// The order that programs a region from a place on; in the SRAM window the bytes are stored.
fn program_in(region: Region, offset: usize, size: u32) -> Order
    ensures { result ≡ program_in offset size region }
{
    match region {
        Region::Main => Order::ProgramMain { offset, size },
        Region::Settings => Order::ProgramSettings { offset, size },
        Region::Window => Order::StoreWindow { offset, size },
        Region::Outside => Order::Keep,
    }
}

// Whether every byte of the range is 0xFF. Of a range of whole words that may change, this tells whether every word is blank.
fn is_blank(region: Region, offset: usize, size: u32, areas: Areas<'_>) -> bool
    ensures { result ≡ all_are 0xFF (bytes_in offset size (memory_in areas.entry) region) }
{
    let bytes = flash::bytes_in(region, offset, size as usize, areas);
    octets::all_are(BLANK, bytes)
}

// Programs the region that holds the range wholly, where it is flash, no place of it is protected and no word is written. The SRAM window
// takes any bytes at any address.
#[tactic(auto, using(crate::proofs::WrittenLaws::written_by_bytes), unfolding(crate::specs::Programming::program_at, octets::specs::Choice::pick))]
pub(crate) fn program(site: Site<'_>, address: u32, size: u32, areas: Areas<'_>) -> Planned
    ensures { result ≡ program site.entry.part site.entry.main_size site.entry.protection.now site.entry.shown.settings_protected address size (memory_in areas.entry) }
{
    let place = site.locate(address, u64::from(size));
    let region = place.region;
    let offset = place.offset;
    if let Region::Outside = region {
        return plans::tells(codes::INVALID_RANGE);
    }
    if let Region::Window = region {
        return plans::orders(codes::SUCCESS, program_in(region, offset, size));
    }
    if !is_aligned(site.part.word_size, address, size) {
        return plans::tells(codes::NOT_ALIGNED);
    }
    if place.first_protected.is_some() {
        return plans::tells(codes::INVALID_RANGE);
    }
    if !is_blank(region, offset, size, areas) {
        return Planned::from(Reply::FlashError);
    }
    plans::orders(codes::SUCCESS, program_in(region, offset, size))
}
