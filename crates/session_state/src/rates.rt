// The rates of the line.
ghost use Rattle.std.specs.Prelude.{◌≡◌};
ghost use Rattle.session_state.specs.Rates.{rate_of};

// Indexed by the id; no rate has the id 0.
static RATES: [u32; 10] = [
    0, 4800, 9600, 19200, 38400, 57600, 115200, 1000000, 2000000, 3000000,
];

const LAST_IN_TABLE: u8 = 9;

// A rate that only a larger part has, and its id.
const FASTEST_ID: u8 = 0x10;

const FASTEST: u32 = 4000000;

// The rate that has this id, in bits a second, or 0 where none has, on a part whose last rate has the given id. A number: C gets it as it
// is. By a test of the id and not by `get` and `unwrap_or`, which take more instructions.
#[tactic(auto, using(crate::proofs::RateLaws::none_answered, crate::proofs::RateLaws::fastest_answered, crate::proofs::RateLaws::none_past_the_table, crate::proofs::RateLaws::rate_in_table))]
pub fn rate_of(last_rate: u8, id: u8) -> u32
    ensures { result ≡ rate_of last_rate id }
{
    if !line::is_rate(last_rate, id) {
        return 0;
    }
    if id == FASTEST_ID {
        return FASTEST;
    }
    if LAST_IN_TABLE < id {
        return 0;
    }
    RATES[usize::from(id)]
}
