// The layout of this part's images: form 2, with protection of 32 bytes.
ghost use Rattle.settings.specs.Layout.{large};
ghost use Rattle.settings.specs.Sound.{larger_sound};

use settings::ImageLayout;

#[derive(Clone, Copy, Debug, PartialEq, Eq)]
pub(crate) struct Larger;

impl ImageLayout for Larger {
    ghost layout = { large };

    ghost sound = { larger_sound };

    #[tactic(auto, unfolding(octets::specs::Number::bytes_of, settings::specs::Layout::table_of, settings::specs::Layout::entries_from, settings::specs::Layout::offset_of, settings::specs::Layout::sum_of, settings::specs::Layout::pairs_of))]
    fn table() -> &'static [u8] {
        b"\x02\0\x07\0\x01\0\x3C\0\x20\0\0\0\x02\0\x5C\0\x10\0\0\0\x03\0\x6C\0\x06\0\0\0\x04\0\x72\0\x08\0\0\0\x05\0\x7A\0\x04\0\0\0\x06\0\x7E\0\x20\0\0\0\x07\0\x9E\0\x40\0\0\0"
    }
}
