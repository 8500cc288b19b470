// The regions of memory: which sizes MAIN may have, which region holds a range of addresses, and the bytes there.
ghost use Rattle.std.specs.Prelude.{◌≡◌, ◌+◌, ◌<◌, ◌≤◌};
ghost use Rattle.flash.specs.Regions.{is_main_size, lies_within, place_in, window_place, place_of};
ghost use Rattle.flash.specs.Memory.{memory_in, bytes_in};

use crate::{Areas, Place, Region, Sectors, protection};
use parts::Part;

const MAIN_START: u32 = 0;

// Whether MAIN may have so many bytes: whole sectors, at least one, up to the part's most.
#[tactic(auto, unfolding(crate::specs::Regions::is_main_size, octets::specs::Choice::pick))]
pub fn is_main_size(part: Part, size: usize) -> bool
    ensures { result ≡ is_main_size part size }
{
    let sector = part.sector_size as usize;
    let most = part.most_main as usize;
    sector <= size && size <= most && octets::is_multiple(size as u64, sector as u64)
}

// Whether a region of so many bytes from a start on holds the range wholly.
// The sums are of 64 bits, and a count above the size is told first, so nothing wraps.
#[tactic(auto, unfolding(crate::specs::Regions::lies_within, octets::specs::Choice::pick))]
fn lies_within(start: u32, size: u32, first: u32, count: u64) -> bool
    ensures { result ≡ lies_within start size first count }
{
    let room = u64::from(size);
    start <= first && count <= room && u64::from(first) + count <= u64::from(start) + room
}

// The place of a range that a region holds wholly.
#[tactic(auto, unfolding(octets::specs::Choice::pick))]
fn place_in(region: Region, sectors: Sectors<'_>, start: u32, first: u32, count: u64) -> Place
    requires { (start ≤ first) × (first + count ≤ start + 0xFFFFFFFF) × (sectors.size < 4294967296) }
    ensures { result ≡ place_in region sectors.entry.size sectors.entry.protection.now start first count }
{
    let offset = (first - start) as usize;
    let end = offset + count as usize;
    let kept = protection::first_kept(sectors, offset, end);
    // by hand: a closure would ask in a clause of its own that the sum fits
    let first_protected = match kept {
        Some(kept) => Some(u64::from(start) + kept as u64),
        None => None,
    };
    Place {
        region,
        offset,
        first_protected,
    }
}

// The place of a range that the SRAM window holds wholly. It has no sectors, and nothing of it is protected.
fn place_in_window(start: u32, first: u32) -> Place
    requires { start ≤ first }
    ensures { result ≡ window_place start first }
{
    Place {
        region: Region::Window,
        offset: (first - start) as usize,
        first_protected: None,
    }
}

// The region that holds the range wholly, for every count. The settings flash is one sector, and the number is its bit.
#[tactic(auto, using(crate::proofs::RegionLaws::within_bounds), unfolding(crate::specs::Regions::place_of, octets::specs::Choice::pick))]
pub fn locate(
    part: Part,
    main_size: u32,
    protection: &[u8],
    settings_protected: u8,
    first: u32,
    count: u64,
) -> Place
    ensures { result ≡ place_of part main_size protection.now settings_protected first count }
{
    let size = part.sector_size as usize;
    if lies_within(MAIN_START, main_size, first, count) {
        let sectors = Sectors { size, protection };
        return place_in(Region::Main, sectors, MAIN_START, first, count);
    }
    if lies_within(part.settings_start, part.settings_size, first, count) {
        let sectors = Sectors {
            size,
            protection: &[settings_protected],
        };
        return place_in(Region::Settings, sectors, part.settings_start, first, count);
    }
    if lies_within(part.window_start, part.window_size, first, count) {
        return place_in_window(part.window_start, first);
    }
    Place {
        region: Region::Outside,
        offset: 0,
        first_protected: None,
    }
}

// So many bytes of a region, from a place on; none outside.
pub fn bytes_in<'a>(region: Region, offset: usize, size: usize, areas: Areas<'a>) -> &'a [u8]
    ensures { result.now ≡ bytes_in offset size (memory_in areas.entry) region }
{
    match region {
        Region::Main => octets::part_of(areas.main, offset, size),
        Region::Settings => octets::part_of(areas.settings, offset, size),
        Region::Window => octets::part_of(areas.window, offset, size),
        Region::Outside => &[],
    }
}
