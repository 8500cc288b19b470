// The password comparisons: that of Unlock, and that of Factory reset. `octets::comparing::differing` goes over every byte of both passwords,
// also after one that differs, and promises how many differ, which nobody can tell who stops before the end; no branch there hangs on a byte.
// No proof says how long that takes, or what a compiler makes of it (`docs/BENCH.md` has what was counted). Other packets are not compared.
ghost use Rattle.std.specs.Prelude.{◌≡◌, ℕ, List};
ghost use Rattle.octets.specs.Alike.{are_same};
ghost use Rattle.line.specs.Packet.{password_in, reset_password_in};
ghost use Rattle.session_state.specs.declared.Standing.{Standing};
ghost use Rattle.session_judge.specs.Hearing.{judged_of};
ghost use Rattle.parts.specs.declared.Part.{Part};
ghost use Rattle.flash.specs.Memory.{Memory};
ghost use Rattle.settings.specs.declared.Shown.{Shown};
ghost use Rattle.session_act.specs.Acting.{plan_of};

use line::{CORE_AT, FIRST_AT, Guarded, codes};
use session_judge::Effect;

const PASSWORD_SIZE: usize = 32;

const RESET_PASSWORD_SIZE: usize = 16;

// The bit of which the judge hears: whether an Unlock carries the password. A packet with another command byte, or one that ends before a
// password would, is no Unlock, and is judged alike.
#[tactic(auto, using(session_judge::proofs::StrangerLaws::others_are_not_compared, session_judge::proofs::StrangerLaws::short_are_not_compared))]
pub(crate) fn unlocks(password: &[u8], packet: &[u8]) -> bool
    ensures { (standing : Standing) (last_rate alert wait : ℕ) → judged_of last_rate standing alert wait packet.now result ≡ judged_of last_rate standing alert wait packet.now (are_same password.now (password_in packet.now)) }
{
    if octets::byte_at(packet, CORE_AT) != codes::UNLOCK {
        return false;
    }
    if packet.len() < FIRST_AT + PASSWORD_SIZE {
        return false;
    }
    octets::are_same(password, octets::part_of(packet, FIRST_AT, PASSWORD_SIZE))
}

// The bit of which the plan hears: whether a Factory reset carries the reset password. Any other effect is planned alike.
pub(crate) fn resets(effect: Effect, password: &[u8], packet: &[u8]) -> bool
    ensures { (part : Part) (main_size : ℕ) (shown : Shown) (protection : List ℕ) (before : Memory) → plan_of part main_size shown protection result before effect ≡ plan_of part main_size shown protection (are_same password.now (reset_password_in packet.now)) before effect }
{
    let Effect::Perform(Guarded::FactoryReset { .. }) = effect else {
        return false;
    };
    octets::are_same(
        password,
        octets::part_of(packet, FIRST_AT, RESET_PASSWORD_SIZE),
    )
}
