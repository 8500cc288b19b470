// What stands for a blank image.
ghost use Rattle.std.specs.Prelude.{◌≡◌};
ghost use Rattle.settings_large.specs.Contents.{blank_contents};

use crate::LargeContents;
use settings::{Form, NAME_SIZE};

// The contents of a blank image, which counts as form 2.
#[tactic(auto, unfolding(settings::specs::Values::no_name))]
pub(crate) fn blank_contents() -> LargeContents
    ensures { result ≡ blank_contents }
{
    let settings = settings::blank_kept();
    LargeContents {
        form: Form::Two,
        settings,
        name: [0xFF; NAME_SIZE],
    }
}
