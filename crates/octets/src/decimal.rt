// Numbers as text: in decimal, with no zero before the first digit.
ghost use Rattle.std.specs.Prelude.{◌≡◌};
ghost use Rattle.std.proofs.lemmas.List.Edits.{sets};
ghost use Rattle.octets.specs.Decimal.{last_digits, most_digits, digits_in, decimal_of};

use crate::storing;

// No number of 32 bits has more.
const MOST_DIGITS: usize = 10;

// How many digits a number has.
#[tactic(auto, using(crate::proofs::DecimalLaws::digits_by_power, crate::proofs::DecimalLaws::zero_counted))]
pub fn digits_in(number: u32) -> usize
    ensures { result ≡ digits_in number }
{
    match number.checked_ilog10() {
        Some(tens) => tens as usize + 1,
        None => 1,
    }
}

// As many digits as a number can have, with the zeros before it. By place, from the last to the first.
fn all_digits(number: u32) -> [u8; MOST_DIGITS]
    ensures { result ≡ last_digits most_digits number }
{
    let mut digits = [b'0'; MOST_DIGITS];
    let mut rest = number;
    for i in (0..MOST_DIGITS).rev() {
        digits[i] = b'0' + (rest % 10) as u8;
        rest /= 10;
    }
    digits
}

// Stores a number in decimal from a place on, as many of its digits as there is room for.
pub fn put_decimal(area: &mut [u8], at: usize, number: u32)
    ensures { area.new ≡ sets area.old at (decimal_of number) }
{
    let digits = all_digits(number);
    let first = MOST_DIGITS - digits_in(number);
    storing::put(area, at, &digits[first..]);
}
