// Plans with no bytes beside the answer; each is made so often that it has a name.
ghost use Rattle.std.specs.Prelude.{◌≡◌};
ghost use Rattle.flash.specs.declared.Region.TheVariants.{Outside};
ghost use Rattle.session_act.specs.Plans.{planned, says, tells, orders};

use crate::{Order, Planned};
use flash::Region;
use line::Reply;

// An answer, and an order.
fn planned(reply: Reply, order: Order) -> Planned
    ensures { result ≡ planned reply order Outside 0 0 }
{
    Planned {
        reply,
        order,
        region: Region::Outside,
        offset: 0,
        count: 0,
    }
}

// An answer, and memory is kept.
impl From<Reply> for Planned {
    ghost from_gives = { λ reply planned. planned ≡ says reply };

    fn from(reply: Reply) -> Planned {
        planned(reply, Order::Keep)
    }
}

// A message, and memory is kept.
pub(crate) fn tells(code: u8) -> Planned
    ensures { result ≡ tells code }
{
    Planned::from(Reply::Message(code))
}

// A message, and something is done.
pub(crate) fn orders(code: u8, order: Order) -> Planned
    ensures { result ≡ orders code order }
{
    planned(Reply::Message(code), order)
}
