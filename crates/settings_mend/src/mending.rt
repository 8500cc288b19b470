// A damaged image put right where it lies, and what was changed of it.
ghost use Rattle.std.specs.Prelude.{◌≡◌, ◌≤◌, length, replicate};
ghost use Rattle.octets.specs.Number.{part};
ghost use Rattle.octets.specs.Alike.{differing};
ghost use Rattle.settings_mend.specs.Mending.{allowed_or, mended_values, mended, changed, changes_of, mend_left, mend_told, mend_of};

use crate::{Changes, Examined, MendError, examining};
use settings::{CHECKSUM_AT, FIELDS_SIZE, IMAGE_SIZE};

// Where the parts of an image of form 1 stand: its bodies, body 3 among them, its filler, and its checksum.
const BODIES_AT: usize = 52;

const VALUES_AT: usize = 100;

const VALUES_SIZE: usize = 6;

const VALUES_END: usize = VALUES_AT + VALUES_SIZE;

const FILLER_AT: usize = BODIES_AT + FIELDS_SIZE;

const SUM_SIZE: usize = IMAGE_SIZE - CHECKSUM_AT;

// A value, if it is at most the greatest that is allowed, or else the one of a blank board.
#[tactic(auto, unfolding(crate::specs::Mending::allowed_or, octets::specs::Choice::pick))]
fn allowed_or(value: u8, most: u8, blank: u8) -> u8
    ensures { result ≡ allowed_or value most blank }
{
    if value <= most { value } else { blank }
}

// The values of body 3 that are not allowed become those of a blank board; the others are kept, any readout among them.
#[tactic(auto, using(crate::proofs::MendLaws::values_put), unfolding(crate::specs::Mending::mended_values))]
fn mend_values(values: &mut [u8])
    requires { length values.old ≡ 6 }
    ensures { values.new ≡ mended_values values.old }
{
    values[0] = allowed_or(values[0], 2, 1);
    values[1] = allowed_or(values[1], 2, 0);
    values[4] = allowed_or(values[4], 1, 0);
    values[5] = 0;
}

// Puts right what stands in the bodies, and then all that stands around them.
#[tactic(auto, using(crate::proofs::MendLaws::put_around), unfolding(crate::specs::Mending::mended))]
fn put_right(image: &mut [u8])
    requires { length image.old ≡ 1024 }
    ensures { image.new ≡ mended image.old }
{
    mend_values(&mut image[VALUES_AT..VALUES_END]);
    settings::reseal(image);
}

// How many bytes are not the filler's: so many places differ from a filler that is right. By a sum and not by `filter` and `count`, which looks
// at one byte at a time.
fn not_filler(bytes: &[u8]) -> usize
    ensures { result ≡ differing bytes.now (replicate (length bytes.now) 0xFF) }
{
    let mut count = 0;
    for byte in bytes {
        count += usize::from(*byte != 0xFF);
    }
    count
}

// A slice and its length here, and where an image is put right: whoever mends has the image as a `&mut`, and an array of it would want the size tested twice.
fn filler_changed(image: &[u8]) -> u16
    requires { length image.now ≡ 1024 }
    ensures { result ≡ differing (part 126 894 image.now) (replicate 894 0xFF) }
{
    not_filler(octets::part_of(image, FILLER_AT, CHECKSUM_AT - FILLER_AT)) as u16
}

// How many places of a part differ.
#[tactic(auto, using(crate::proofs::MendLaws::few_changed))]
fn changed(at: usize, count: usize, before: &[u8], after: &[u8]) -> u16
    requires { count ≤ 1024 }
    ensures { result ≡ changed at count before.now after.now }
{
    octets::differing(
        octets::part_of(before, at, count),
        octets::part_of(after, at, count),
    ) as u16
}

// Table and bodies as they stand.
fn front_of(image: &[u8]) -> [u8; 126]
    requires { length image.now ≡ 1024 }
    ensures { result ≡ part 0 126 image.now }
{
    octets::array_at(image, 0)
}

// The checksum as it stands.
fn sum_of(image: &[u8]) -> [u8; 4]
    requires { length image.now ≡ 1024 }
    ensures { result ≡ part 1020 4 image.now }
{
    octets::array_at(image, CHECKSUM_AT)
}

// What was changed of an image, beside its filler.
fn changes(front: &[u8], filler: u16, sum: &[u8], image: &[u8]) -> Changes
    ensures { result ≡ record { table = changed 0 52 front.now image.now; filler = filler; values = changed 100 6 front.now image.now; checksum = changed 0 4 sum.now (part 1020 4 image.now) } }
{
    Changes {
        table: changed(0, BODIES_AT, front, image),
        filler,
        values: changed(VALUES_AT, VALUES_SIZE, front, image),
        checksum: changed(
            0,
            SUM_SIZE,
            sum,
            octets::part_of(image, CHECKSUM_AT, SUM_SIZE),
        ),
    }
}

// Mends an image of the right size, and tells what was changed. Its filler is counted first; of all else that can change, the bytes are kept.
#[tactic(auto, using(crate::proofs::MendLaws::counted), unfolding(crate::specs::Mending::changes_of))]
fn mend_damaged(image: &mut [u8]) -> Changes
    requires { length image.old ≡ 1024 }
    ensures { (result ≡ changes_of image.old (mended image.old)) × (image.new ≡ mended image.old) }
{
    let filler = filler_changed(image);
    let front = front_of(image);
    let sum = sum_of(image);
    put_right(image);
    changes(&front, filler, &sum, image)
}

// Mends an image where it is damaged, or refuses. One that is refused or accepted keeps every byte.
#[tactic(auto, using(crate::proofs::MendLaws::damaged_has_size), unfolding(crate::specs::Mending::mend_of))]
pub fn mend(image: &mut [u8]) -> Result<Changes, MendError>
    ensures { mend_left (mend_told result) image.new ≡ mend_of image.old }
{
    Ok(match examining::examine(image)? {
        Examined::Accepted => Changes::default(),
        Examined::Damaged => mend_damaged(image),
    })
}
