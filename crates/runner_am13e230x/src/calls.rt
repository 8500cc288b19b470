// What a call leaves to the runner.
ghost use Rattle.std.specs.Prelude.{◌≡◌, IfOk, IfErr};
ghost use Rattle.session.specs.CallAnswers.{call_numbered};

use session::{CallError, Called, Session};

// What a call of a session leaves. One that is refused has no reply, and leaves the session that it was given.
pub(crate) fn left_by(session: Session, called: Result<Called, CallError>) -> Called
    ensures { IfOk called (λ answered. result ≡ answered)
        × IfErr called (λ error. (result.session ≡ session)
        × (result.size ≡ (call_numbered error).size)
        × (result.burn ≡ (call_numbered error).burn)) }
{
    called.unwrap_or(Called {
        session,
        size: 0,
        burn: false,
    })
}
