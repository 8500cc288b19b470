// Bytes compared: with one value, and with other bytes. Each is looked at, also after one that differs.
ghost use Rattle.std.specs.Prelude.{◌≡◌};
ghost use Rattle.octets.specs.Alike.{all_are, are_same, differing};

// Whether every byte is the given one. By a flag and not by `all`: a loop that can be left looks at one byte at a time, this one at sixteen.
#[tactic(auto, using(crate::proofs::AlikeLaws::all_next, crate::proofs::AlikeLaws::all_stops, crate::proofs::AlikeLaws::all_passed), unfolding(crate::specs::Choice::pick))]
pub fn all_are(value: u8, bytes: &[u8]) -> bool
    ensures { result ≡ all_are value bytes.now }
{
    let mut all = true;
    for byte in bytes {
        if *byte != value {
            all = false;
        }
    }
    all
}

// How many places differ; one that only one of the two has differs. Whoever stops at a difference cannot tell.
pub fn differing(some: &[u8], others: &[u8]) -> usize
    ensures { result ≡ differing some.now others.now }
{
    let mut count = 0;
    for (one, other) in some.iter().zip(others) {
        // 0 for two bytes that are the same and else 1, by a sum and not by `filter` and `count`: no branch hangs on a byte
        count += (usize::from(*one ^ *other) + 255) / 256;
    }
    count + some.len().abs_diff(others.len())
}

// Whether these are the same bytes: no place differs. Not std's `==`, which stops at the first that does.
#[tactic(auto, using(crate::proofs::AlikeLaws::none_differs))]
pub fn are_same(some: &[u8], others: &[u8]) -> bool
    ensures { result ≡ are_same some.now others.now }
{
    differing(some, others) == 0
}
