// Long slices, eight bytes a turn, with no table: the method published as "Chorba" (S. Russell, arXiv 2412.16398).
//
// Bits that go into the checksum are a polynomial, and what stays of it is its remainder by CRC32's. CRC32's polynomial divides
// x^300 + x^155 + x^117 + x^89 + 1, so where a bit stands, four others make the same of the checksum: those 145, 183, 211 and 300
// bits further on (300 - 155, 300 - 117, 300 - 89, 300). So eight bytes are taken away, and what stands for them goes to the
// bytes that follow: into five sums, the lanes, that wait in a queue for the next five numbers of eight bytes. The first of
// these takes nothing of the turn before it, and the processor works on two turns at a time.
ghost use Rattle.std.specs.Prelude.{◌≡◌};
ghost use Rattle.std.specs.Int.Bits.{bit_xor};
ghost use Rattle.checksum.specs.Checksum.{bits_on, checksum_from};
ghost use Rattle.checksum.specs.Inside.{second_of, third_of, fourth_of, fifth_of};

use crate::short::{by_words, word_bits};

// What a number of eight bytes leaves to the second, third, fourth and fifth after it: itself, moved up by 145 - 128 and
// 183 - 128 bits, by 211 - 192, by 300 - 256, and each time what did not fit.
#[tactic(auto, unfolding(crate::specs::Inside::second_of))]
fn second_of(long: u64) -> u64
    ensures { result ≡ second_of long }
{
    long << 17 ^ long << 55
}

#[tactic(auto, unfolding(crate::specs::Inside::third_of))]
fn third_of(long: u64) -> u64
    ensures { result ≡ third_of long }
{
    long >> 47 ^ (long >> 9 ^ long << 19)
}

#[tactic(auto, unfolding(crate::specs::Inside::fourth_of))]
fn fourth_of(long: u64) -> u64
    ensures { result ≡ fourth_of long }
{
    long >> 45 ^ long << 44
}

#[tactic(auto, unfolding(crate::specs::Inside::fifth_of))]
fn fifth_of(long: u64) -> u64
    ensures { result ≡ fifth_of long }
{
    long >> 20
}

// The bits of eight bytes: those of the lower word, which go into the higher one.
#[tactic(auto, using(crate::proofs::Steps::long_by_words))]
fn long_bits(long: u64) -> u32
    ensures { result ≡ bits_on 64 long }
{
    word_bits(word_bits((long % 4294967296) as u32) ^ (long / 4294967296) as u32)
}

// A lane goes in before its eight bytes.
fn lane_in(sum: u32, lane: u64, long: [u8; 8]) -> u32
    ensures { result ≡ checksum_from (bit_xor sum lane) long }
{
    long_bits(u64::from(sum) ^ lane ^ u64::from_le_bytes(long))
}

// Going on over the bytes: the earlier value is the first lane. In the end each lane goes in before the eight bytes that it waits for.
pub(crate) fn by_lanes(earlier: u32, bytes: &[u8]) -> u32
    ensures { result ≡ checksum_from earlier bytes.now }
{
    let (longs, rest) = bytes.as_chunks::<8>();
    let Some((most, last)) = longs.split_last_chunk::<5>() else {
        return by_words(earlier, bytes);
    };
    let mut first = u64::from(earlier);
    let mut second = 0;
    let mut third = 0;
    let mut fourth = 0;
    let mut fifth = 0;
    for eight in most {
        let long = first ^ u64::from_le_bytes(*eight);
        first = second;
        second = third ^ second_of(long);
        third = fourth ^ third_of(long);
        fourth = fifth ^ fourth_of(long);
        fifth = fifth_of(long);
    }
    let mut sum = lane_in(0, first, last[0]);
    sum = lane_in(sum, second, last[1]);
    sum = lane_in(sum, third, last[2]);
    sum = lane_in(sum, fourth, last[3]);
    sum = lane_in(sum, fifth, last[4]);
    by_words(sum, rest)
}
