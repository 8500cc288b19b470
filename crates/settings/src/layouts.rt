// The layouts of an image, each a type: here form 1 and form 2. The larger part has one of its own.
ghost use Rattle.std.specs.Prelude.{◌≡◌};
ghost use Rattle.settings.specs.Layout.{Layout, form1, form2, table_of, pairs_of};
ghost use Rattle.settings.specs.Sound.{Sound, first_sound, second_sound};

// A layout of an image. Its table says all of it.
pub trait ImageLayout {
    ghost layout: { Layout };

    // The form, the count of entries, and then kind, offset, length and zero of each, two bytes a number.
    fn table() -> &'static [u8]
        ensures { result.now ≡ pairs_of (table_of layout) };

    ghost sound: { Sound layout };
}

#[derive(Clone, Copy, Debug, PartialEq, Eq)]
pub(crate) struct First;

#[derive(Clone, Copy, Debug, PartialEq, Eq)]
pub(crate) struct Second;

impl ImageLayout for First {
    ghost layout = { form1 };

    ghost sound = { first_sound };

    #[tactic(auto, unfolding(octets::specs::Number::bytes_of, crate::specs::Layout::table_of, crate::specs::Layout::entries_from, crate::specs::Layout::offset_of, crate::specs::Layout::sum_of, crate::specs::Layout::pairs_of))]
    fn table() -> &'static [u8] {
        b"\x01\0\x06\0\x01\0\x34\0\x20\0\0\0\x02\0\x54\0\x10\0\0\0\x03\0\x64\0\x06\0\0\0\x04\0\x6A\0\x08\0\0\0\x05\0\x72\0\x04\0\0\0\x06\0\x76\0\x08\0\0\0"
    }
}

impl ImageLayout for Second {
    ghost layout = { form2 };

    ghost sound = { second_sound };

    #[tactic(auto, unfolding(octets::specs::Number::bytes_of, crate::specs::Layout::table_of, crate::specs::Layout::entries_from, crate::specs::Layout::offset_of, crate::specs::Layout::sum_of, crate::specs::Layout::pairs_of))]
    fn table() -> &'static [u8] {
        b"\x02\0\x07\0\x01\0\x3C\0\x20\0\0\0\x02\0\x5C\0\x10\0\0\0\x03\0\x6C\0\x06\0\0\0\x04\0\x72\0\x08\0\0\0\x05\0\x7A\0\x04\0\0\0\x06\0\x7E\0\x08\0\0\0\x07\0\x86\0\x40\0\0\0"
    }
}
