// Read back and Verify: neither changes memory.
ghost use Rattle.std.specs.Prelude.{◌≡◌};
ghost use Rattle.flash.specs.Memory.{memory_in};
ghost use Rattle.session_act.specs.Board.{board_in, place_on};
ghost use Rattle.session_act.specs.Showing.{read_back_at, verify_at};

use crate::{Order, Planned, Site, plans};
use flash::{Areas, Region};
use line::{Reply, codes};

const READOUT_ON: u16 = 0xAABB;

const READ_BACK_MOST: u32 = 1720;

// Where the bytes of a range stand that may be read back.
#[tactic(auto, unfolding(crate::specs::Showing::read_back_at, octets::specs::Choice::pick))]
pub(crate) fn read_back(site: Site<'_>, address: u32, size: u32) -> Planned
    ensures { result ≡ read_back_at site.entry.shown.readout size (place_on (board_in site.entry) address size) }
{
    if site.shown.readout != READOUT_ON {
        return plans::tells(codes::READOUT_OFF);
    }
    if size == 0 || READ_BACK_MOST < size {
        return plans::tells(codes::INVALID_RANGE);
    }
    let place = site.locate(address, u64::from(size));
    let region = place.region;
    if let Region::Outside = region {
        return plans::tells(codes::INVALID_RANGE);
    }
    Planned {
        reply: Reply::Bytes,
        order: Order::Keep,
        region,
        offset: place.offset,
        count: size,
    }
}

// The checksum of a range that one region of flash holds wholly.
#[tactic(auto, unfolding(crate::specs::Showing::verify_at, octets::specs::Choice::pick))]
pub(crate) fn verify(site: Site<'_>, address: u32, size: u32, areas: Areas<'_>) -> Reply
    ensures { result ≡ verify_at site.entry.part size (memory_in areas.entry) (place_on (board_in site.entry) address size) }
{
    let least = site.part.least_verify;
    if size < least {
        return Reply::Message(codes::TOO_SMALL);
    }
    let place = site.locate(address, u64::from(size));
    let region = place.region;
    if let Region::Window | Region::Outside = region {
        return Reply::Message(codes::INVALID_RANGE);
    }
    let bytes = flash::bytes_in(region, place.offset, size as usize, areas);
    Reply::Sum(checksum::checksum_of(bytes))
}
