// Word by word of four bytes, and the last bytes one by one: for short slices, and for the end of long ones.
ghost use Rattle.std.specs.Prelude.{◌≡◌, ◌<◌};
ghost use Rattle.checksum.specs.Checksum.{bits_on, checksum_from};

use crate::half_bytes::half_bits;

// Eight bits: what they make of each half of the lowest byte, and what stands above it moves down.
#[tactic(auto, using(crate::proofs::Steps::eight_by_halves))]
fn eight_bits(sum: u32) -> u32
    ensures { result ≡ bits_on 8 sum }
{
    half_bits(1, sum % 16) ^ (half_bits(0, sum / 16 % 16) ^ (sum / 256))
}

// Sixteen bits of a number of two bytes: what they make of each half byte.
#[tactic(auto, using(crate::proofs::Steps::sixteen_by_halves))]
fn sixteen_bits(pair: u32) -> u32
    requires { pair < 65536 }
    ensures { result ≡ bits_on 16 pair }
{
    half_bits(3, pair % 16)
        ^ (half_bits(2, pair / 16 % 16)
            ^ (half_bits(1, pair / 256 % 16) ^ half_bits(0, pair / 4096)))
}

// The bits of a word: none of its half bytes waits for another.
#[tactic(auto, using(crate::proofs::Steps::word_by_halves))]
pub(crate) fn word_bits(word: u32) -> u32
    ensures { result ≡ bits_on 32 word }
{
    half_bits(7, word % 16)
        ^ (half_bits(6, word / 16 % 16)
            ^ (half_bits(5, word / 256 % 16)
                ^ (half_bits(4, word / 4096 % 16) ^ sixteen_bits(word / 65536))))
}

// Going on over the bytes one by one.
pub(crate) fn by_bytes(mut sum: u32, bytes: &[u8]) -> u32
    ensures { result ≡ checksum_from sum bytes.now }
{
    for byte in bytes {
        sum = eight_bits(sum ^ u32::from(*byte));
    }
    sum
}

// The same, four at a time while there are as many.
pub(crate) fn by_words(mut sum: u32, bytes: &[u8]) -> u32
    ensures { result ≡ checksum_from sum bytes.now }
{
    let (words, rest) = bytes.as_chunks::<4>();
    for word in words {
        sum = word_bits(sum ^ u32::from_le_bytes(*word));
    }
    by_bytes(sum, rest)
}
