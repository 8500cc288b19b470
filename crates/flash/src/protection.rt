// The protection of sectors: one bit each; and the first protected place of a run.
ghost use Rattle.std.specs.Prelude.{◌≡◌, ◌<◌, IfSome};
ghost use Rattle.flash.specs.Protection.{is_protected, first_kept, found_before};

use crate::Sectors;

// Whether a sector is protected. Sectors that the bytes have no bit for are not.
#[tactic(auto, unfolding(crate::specs::Protection::is_protected))]
pub(crate) fn is_protected(protection: &[u8], sector: usize) -> bool
    ensures { result ≡ is_protected protection.now sector }
{
    (octets::byte_at(protection, sector / 8) >> (sector % 8)) % 2 == 1
}

// The first protected place from one on and before an end, if there is one. The first place of each sector is looked at. Of sectors with no bytes
// every place is protected.
#[tactic(auto, using(crate::proofs::KeptLaws::found_here, crate::proofs::KeptLaws::none_found, crate::proofs::KeptLaws::kept_empty_sectors, crate::proofs::KeptLaws::kept_none, crate::proofs::KeptLaws::kept_here, crate::proofs::KeptLaws::kept_next))]
pub(crate) fn first_kept(sectors: Sectors<'_>, at: usize, end: usize) -> Option<usize>
    requires { (sectors.size < 4294967296) × (end < 4294967296) }
    ensures found { result ≡ found_before end (first_kept sectors.entry.size sectors.entry.protection.now at end) }
    ensures before { IfSome result (λ place. place < end) }
{
    if sectors.size == 0 {
        return if at < end { Some(at) } else { None };
    }
    // by hand: a step is a sector, and the first one may begin before the run
    let mut place = at;
    while place < end {
        let sector = place / sectors.size;
        if is_protected(sectors.protection, sector) {
            return Some(place);
        }
        place = (sector + 1) * sectors.size;
    }
    None
}
