// Range erase and Factory reset: what they plan.
ghost use Rattle.std.specs.Prelude.{◌≡◌};
ghost use Rattle.session_act.specs.Erasing.{range_erase, factory_reset};

use crate::{Order, Planned, Site, plans};
use flash::Region;
use line::codes;

// Reset modes. They are numbers: refusal 8 speaks of those that are no mode.
const MODE_OFF: u8 = 0;

const MODE_WITH_PASSWORD: u8 = 2;

// The sectors from start's to end's, where the whole range lies in MAIN and no place of it is protected. The count is of 64 bits, so it does
// not wrap.
#[tactic(auto, unfolding(crate::specs::Erasing::range_erase, octets::specs::Choice::pick))]
pub(crate) fn range_erase(site: Site<'_>, start: u32, end: u32) -> Planned
    ensures { result ≡ range_erase site.entry.part site.entry.main_size site.entry.protection.now site.entry.shown.settings_protected start end }
{
    if end < start {
        return plans::tells(codes::INVALID_RANGE);
    }
    let place = site.locate(start, u64::from(end - start) + 1);
    match (place.region, place.first_protected) {
        (Region::Main, None) => plans::orders(codes::SUCCESS, Order::EraseBetween { start, end }),
        _ => plans::tells(codes::INVALID_RANGE),
    }
}

// Both regions where the reset mode and the password allow it.
#[tactic(auto, unfolding(crate::specs::Erasing::factory_reset, crate::specs::Erasing::lacks_reset_password, octets::specs::Choice::pick))]
pub(crate) fn factory_reset(mode: u8, with: bool, right: bool) -> Planned
    ensures { result ≡ factory_reset mode with right }
{
    match mode {
        MODE_OFF => plans::tells(codes::RESET_OFF),
        MODE_WITH_PASSWORD if !(with && right) => plans::tells(codes::RESET_PASSWORD_WRONG),
        _ => plans::orders(codes::SUCCESS, Order::EraseBoth),
    }
}
