// One call of a session: check the record, judge the packet, plan, carry out, answer.
ghost use Rattle.std.specs.Prelude.{◌≡◌};
ghost use Rattle.flash.specs.Memory.{memory};
ghost use Rattle.session_act.specs.Board.{acted};
ghost use Rattle.session.specs.CallAnswers.{called_left, call_left};
ghost use Rattle.session.specs.Calling.{judgement, intent, deed, serve_of, call_of};

use crate::{CallError, Called, Session, passwords, records};
use flash::Areas;
use line::codes;
use parts::Part;
use session_act::{Planned, Site};
use session_judge::{Effect, Judged};

// The packet is judged; of the password the judge hears only whether the packet carries it.
fn judge_packet(last_rate: u8, session: Session, wait: u32, packet: &[u8]) -> Judged
    ensures { result ≡ judgement last_rate session wait packet.now }
{
    let settings = session.settings;
    let right = passwords::unlocks(&settings.password, packet);
    session_judge::judge(
        last_rate,
        session.standing,
        settings.shown.alert,
        wait,
        packet,
        right,
    )
}

// What was decided is planned, and the plan's order carried out. Most packets are only answered, and nothing is to be done.
fn act_on(
    part: Part,
    effect: Effect,
    session: Session,
    packet: &[u8],
    main: &mut [u8],
    image: &mut [u8],
    window: &mut [u8],
) -> Planned
    ensures { (result ≡ intent part session packet.now (memory main.old image.old window.old) effect) × (acted result.reply (memory main.new image.new window.new) ≡ deed part session packet.now (memory main.old image.old window.old) effect) }
{
    if let Effect::Say(reply) = effect {
        return Planned::from(reply);
    }
    let settings = session.settings;
    let right = passwords::resets(effect, &settings.reset_password, packet);
    let site = Site {
        part,
        main_size: session.main_size,
        shown: settings.shown,
        protection: &settings.protection,
    };
    let areas = Areas {
        main,
        settings: image,
        window,
    };
    let planned = session_act::plan(site, effect, right, areas);
    session_act::carry_out(site, planned.order, packet, main, image, window);
    planned
}

// A call with a valid record, a large enough area and a window of the part's size. The session keeps its MAIN size and its settings.
#[tactic(auto, unfolding(crate::specs::Calling::serve_of))]
fn serve(
    part: Part,
    session: Session,
    main: &mut [u8],
    image: &mut [u8],
    window: &mut [u8],
    wait: u32,
    packet: &[u8],
    area: &mut [u8],
) -> Called
    ensures { called_left result (memory main.new image.new window.new) area.new ≡ serve_of part session (memory main.old image.old window.old) wait packet.now area.old }
{
    let judged = judge_packet(part.last_rate, session, wait, packet);
    let effect = judged.effect;
    let planned = act_on(part, effect, session, packet, main, image, window);
    let areas = Areas {
        main,
        settings: image,
        window,
    };
    let size = session_send::answer(
        planned.reply,
        planned.region,
        planned.offset,
        planned.count,
        packet,
        areas,
        area,
    );
    Called {
        session: Session {
            standing: judged.standing,
            ..session
        },
        size,
        burn: judged.burn,
    }
}

// A call on a board of this part: so many milliseconds after the one before came a packet, perhaps empty. The reply is written to the start of the area.
// A call that is refused changes nothing, and leaves the session that was given.
#[tactic(auto, unfolding(crate::specs::Calling::call_of, octets::specs::Choice::pick))]
pub fn call(
    part: Part,
    session: Session,
    main: &mut [u8],
    image: &mut [u8],
    window: &mut [u8],
    wait: u32,
    packet: &[u8],
    area: &mut [u8],
) -> Result<Called, CallError>
    ensures { call_left session result (memory main.new image.new window.new) area.new ≡ call_of part session (memory main.old image.old window.old) wait packet.now area.old }
{
    if area.len() < codes::REPLY_LIMIT {
        return Err(CallError::ReplyAreaTooSmall);
    }
    if window.len() != part.window_size as usize {
        return Err(CallError::WindowSizeWrong);
    }
    if !records::is_record(part, session, main.len(), image.len()) {
        return Err(CallError::RecordNotValid);
    }
    Ok(serve(part, session, main, image, window, wait, packet, area))
}
