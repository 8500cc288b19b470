// The table of an image: stored, and looked at entry by entry.
ghost use Rattle.std.specs.Prelude.{◌≡◌, ◌<◌, unwrap_or, IfSome};
ghost use Rattle.std.proofs.lemmas.List.Edits.{sets};
ghost use Rattle.settings.specs.Layout.{table_of, pairs_of};
ghost use Rattle.settings.specs.Entries.{differing_entry};

use crate::{ImageLayout, places};

// Stores the layout's table from the start on, number by number, as far as there is room.
#[tactic(auto, using(crate::proofs::TableLaws::length_table, crate::proofs::TableLaws::put_next), unfolding(crate::specs::Layout::pairs_of))]
pub(crate) fn put_table<L: ImageLayout>(image: &mut [u8])
    ensures { image.new ≡ sets image.old 0 (pairs_of (table_of L.layout)) }
{
    let count = 2 + 4 * places::entries_of::<L>();
    for place in 0..count {
        let number = places::table_number::<L>(place);
        octets::put_number(image, 2 * place, 2, u32::from(number));
    }
}

// The number of the first entry that differs from the layout's table, if one does. Entries are counted from 1. Document 01 has two loops that
// are left by a label.
#[tactic(auto, unfolding(crate::specs::Entries::differing_entry, crate::specs::Entries::entry_differs, crate::specs::Entries::field_differs))]
pub(crate) fn differing_entry<L: ImageLayout>(image: &[u8]) -> Option<u8>
    ensures number { unwrap_or result 0 ≡ differing_entry L.layout image.now }
    ensures counted { IfSome result (λ entry. 0 < entry) }
{
    let entries = places::entries_of::<L>();
    'search: {
        for entry in 1..=entries {
            for field in 0..4 {
                let place = 2 + 4 * (entry - 1) + field;
                if octets::number16_at(image, 2 * place) != places::table_number::<L>(place) {
                    break 'search Some(entry as u8);
                }
            }
        }
        None
    }
}
