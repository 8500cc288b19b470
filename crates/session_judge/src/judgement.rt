// What is decided of a packet where no fuse is burnt. An acknowledgement and a message are said so often that each has a name.
ghost use Rattle.std.specs.Prelude.{◌≡◌};
ghost use Rattle.line.specs.declared.Reply.TheVariants.{Acknowledged, Message};
ghost use Rattle.session_judge.specs.Judgement.{judged, says};

use crate::{Effect, Judged};
use line::Reply;
use session_state::Standing;

pub(crate) fn judged(standing: Standing, effect: Effect) -> Judged
    ensures { result ≡ judged standing effect }
{
    Judged {
        standing,
        effect,
        burn: false,
    }
}

pub(crate) fn acknowledges(standing: Standing, code: u8) -> Judged
    ensures { result ≡ says standing (Acknowledged code) }
{
    judged(standing, Effect::Say(Reply::Acknowledged(code)))
}

pub(crate) fn tells(standing: Standing, code: u8) -> Judged
    ensures { result ≡ says standing (Message code) }
{
    judged(standing, Effect::Say(Reply::Message(code)))
}
