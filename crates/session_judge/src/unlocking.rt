// Unlock: what a right and what a wrong password do.
ghost use Rattle.std.specs.Prelude.{◌≡◌};
ghost use Rattle.session_judge.specs.Unlocking.{counted_up, tried_once, after_wrong, alerted, tried};

use crate::{Effect, Judged, judgement};
use line::{Reply, codes};
use session_state::{MOST_SLEEP, MOST_TRIES, MOST_WRONG, Phase, RATE_ID_AT_START, Standing};

// The values of the alert setting that do something. The setting is a number: refusal 8 speaks of those that are none of them.
const ALERT_RESET: u8 = 1;

const ALERT_DISABLE: u8 = 2;

// Locked, with all the sleep there is.
const ASLEEP: Phase = Phase::Command {
    unlocked: false,
    sleep: MOST_SLEEP,
};

// One more, and at most 3.
#[tactic(auto, unfolding(crate::specs::Unlocking::counted_up, octets::specs::Choice::pick))]
fn counted_up(wrong: u8) -> u8
    ensures { result ≡ counted_up wrong }
{
    if wrong < MOST_WRONG {
        return wrong + 1;
    }
    MOST_WRONG
}

// One more of all wrong passwords, up to the most that are told.
#[tactic(auto, unfolding(crate::specs::Unlocking::tried_once, octets::specs::Choice::pick))]
fn tried_once(tries: u32) -> u32
    ensures { result ≡ tried_once tries }
{
    if MOST_TRIES <= tries {
        return tries;
    }
    tries + 1
}

// What is decided of a wrong password, in a phase and with an effect that the count and the alert decide.
fn judged_wrong(standing: Standing, phase: Phase, effect: Effect, burn: bool) -> Judged
    ensures { result ≡ record { standing = after_wrong standing phase; effect = effect; burn = burn } }
{
    let after = Standing {
        phase,
        wrong: counted_up(standing.wrong),
        rate: RATE_ID_AT_START,
        tries: tried_once(standing.tries),
        ..standing
    };
    Judged {
        standing: after,
        effect,
        burn,
    }
}

// The third wrong password, and each later one.
#[tactic(auto, unfolding(crate::specs::Unlocking::alerted, octets::specs::Choice::pick))]
fn alerted(standing: Standing, alert: u8) -> Judged
    ensures { result ≡ alerted standing alert }
{
    let taken = Effect::Say(Reply::Message(codes::ALERT_TAKEN));
    match alert {
        ALERT_RESET => judged_wrong(standing, ASLEEP, Effect::Strike, false),
        ALERT_DISABLE => judged_wrong(standing, Phase::Disabled, taken, true),
        _ => judged_wrong(standing, ASLEEP, taken, false),
    }
}

// A password was sent: it is right, wrong, or wrong too often.
#[tactic(auto, unfolding(crate::specs::Unlocking::tried_wrong, crate::specs::Unlocking::tried, octets::specs::Choice::pick))]
pub(crate) fn tried(standing: Standing, alert: u8, right: bool) -> Judged
    ensures { result ≡ tried standing alert right }
{
    if right {
        let unlocked = Standing {
            phase: Phase::Command {
                unlocked: true,
                sleep: 0,
            },
            wrong: 0,
            ..standing
        };
        return judgement::tells(unlocked, codes::SUCCESS);
    }
    if counted_up(standing.wrong) < MOST_WRONG {
        let wrong = Effect::Say(Reply::Message(codes::PASSWORD_WRONG));
        return judged_wrong(standing, ASLEEP, wrong, false);
    }
    alerted(standing, alert)
}
