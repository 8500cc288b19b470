// What was decided is planned. Memory is read, and not changed.
ghost use Rattle.std.specs.Prelude.{◌≡◌};
ghost use Rattle.flash.specs.Memory.{memory_in};
ghost use Rattle.session_act.specs.Board.{board_in};
ghost use Rattle.session_act.specs.Acting.{task_on, plan_on};

use crate::{Order, Planned, Site, erasing, plans, programming, showing, telling};
use flash::Areas;
use line::{Guarded, codes};
use session_judge::Effect;

// A protected command of an unlocked session.
fn plan_task(site: Site<'_>, task: Guarded, right: bool, areas: Areas<'_>) -> Planned
    ensures { result ≡ task_on (board_in site.entry) right (memory_in areas.entry) task }
{
    match task {
        Guarded::RangeErase { start, end } => erasing::range_erase(site, start, end),
        Guarded::MassErase => plans::orders(codes::SUCCESS, Order::EraseMain),
        Guarded::Program {
            address,
            size,
            silent: _,
        } => programming::program(site, address, size, areas),
        Guarded::ReadBack { address, size } => showing::read_back(site, address, size),
        Guarded::Verify { address, size } => {
            Planned::from(showing::verify(site, address, size, areas))
        }
        Guarded::FactoryReset { with_password } => {
            erasing::factory_reset(site.shown.reset_mode, with_password, right)
        }
        Guarded::WrongLength => plans::tells(codes::WRONG_LENGTH),
    }
}

// Plans what was decided of a packet. `right` is whether the packet carries the session's reset password.
pub fn plan(site: Site<'_>, effect: Effect, right: bool, areas: Areas<'_>) -> Planned
    ensures { result ≡ plan_on (board_in site.entry) right (memory_in areas.entry) effect }
{
    match effect {
        Effect::Say(reply) => Planned::from(reply),
        Effect::TellInfo => telling::info(site.part.long_version, site.shown, areas.main.len()),
        Effect::Strike => plans::orders(codes::ALERT_TAKEN, Order::EraseBoth),
        Effect::Perform(task) => plan_task(site, task, right, areas),
    }
}
