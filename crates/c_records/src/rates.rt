// Rates by their ids.
ghost use Rattle.std.specs.Prelude.{◌≡◌};
ghost use Rattle.c_records.specs.Boundary.{rate_from_c};

use parts::Part;

// The rate that has this id, in bits a second, or 0 where none of this part has: C gets a number.
#[tactic(auto, using(session_state::proofs::RateLaws::past_the_table))]
pub fn rate_by_id(part: Part, id: u32) -> u32
    ensures { result ≡ rate_from_c part id }
{
    let Ok(id) = u8::try_from(id) else {
        return 0;
    };
    session_state::rate_of(part.last_rate, id)
}
