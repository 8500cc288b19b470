// What Info tells of the board: the version, and the two ids.
ghost use Rattle.std.specs.Prelude.{◌≡◌};
ghost use Rattle.parts.specs.Parts.{version_size};
ghost use Rattle.session_act.specs.Info.{info_planned};

use crate::{Order, Planned};
use flash::Region;
use line::Reply;
use settings::Shown;

fn version_size(long: bool) -> u32
    ensures { result ≡ version_size long }
{
    if long { 8 } else { 4 }
}

// The version stands beside the answer, or nothing does where its pointer leads to none; all else is among the settings that may be shown.
// The sum is of 64 bits, so it does not wrap.
#[tactic(auto, unfolding(crate::specs::Info::with_version, octets::specs::Choice::pick))]
pub(crate) fn info(long: bool, shown: Shown, main_size: usize) -> Planned
    ensures { result ≡ info_planned long shown main_size }
{
    let pointer = shown.version_pointer;
    let size = version_size(long);
    let reply = Reply::Info {
        long,
        bcr_id: shown.bcr_id,
        bsl_id: shown.bsl_id,
    };
    if pointer % size != 0 {
        return Planned::from(reply);
    }
    if (main_size as u64) < u64::from(pointer) + u64::from(size) {
        return Planned::from(reply);
    }
    Planned {
        reply,
        order: Order::Keep,
        region: Region::Main,
        offset: pointer as usize,
        count: size,
    }
}
