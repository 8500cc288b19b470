// Where the parts of an image stand, by its layout. Entries are counted from 1.
ghost use Rattle.std.specs.Prelude.{◌≡◌, ◌+◌, ◌*◌, ◌<◌, get_or};
ghost use Rattle.settings.specs.Layout.{count_of, table_end, bodies_end, table_of};
ghost use Rattle.settings.specs.Table.{bodies_at};

use crate::layouts::{First, Second};
use crate::{Form, ImageLayout};

// The number at a place of the table: the form, the count, then four of each entry.
pub(crate) fn table_number<L: ImageLayout>(place: usize) -> u16
    requires { place < 2 + 4 * count_of L.layout }
    ensures { result ≡ get_or (table_of L.layout) place 0 }
{
    octets::number16_at(L::table(), 2 * place)
}

// How many entries the table has.
#[tactic(auto, unfolding(crate::specs::Layout::table_of))]
pub(crate) fn entries_of<L: ImageLayout>() -> usize
    ensures { result ≡ count_of L.layout }
{
    usize::from(table_number::<L>(1))
}

// Where the table ends and the bodies begin.
pub(crate) fn bodies_at<L: ImageLayout>() -> usize
    ensures { result ≡ table_end L.layout }
{
    4 + 8 * entries_of::<L>()
}

// Where the last of them ends and the filler begins.
pub(crate) fn filler_at<L: ImageLayout>() -> usize
    ensures { result ≡ bodies_end L.layout }
{
    let last = 4 * entries_of::<L>();
    usize::from(table_number::<L>(last - 1)) + usize::from(table_number::<L>(last))
}

// Where the bodies of a form begin.
pub(crate) fn form_bodies_at(form: Form) -> usize
    ensures { result ≡ bodies_at form }
{
    match form {
        Form::One => bodies_at::<First>(),
        Form::Two => bodies_at::<Second>(),
    }
}
