// What stands for a blank image, or for none.
ghost use Rattle.std.specs.Prelude.{◌≡◌};
ghost use Rattle.settings.specs.Values.{blank_settings, no_settings, no_name, blank_contents};
ghost use Rattle.settings.specs.Kept.{resized_of, blank_kept, no_kept};

use crate::{Contents, Form, Held, Kept, NAME_SIZE, Settings, Shown};

// The settings of a blank image.
pub fn blank() -> Settings
    ensures { result ≡ blank_settings }
{
    let shown = Shown {
        reset_mode: 1,
        alert: 0,
        readout: 0xFFFF,
        settings_protected: 0,
        bcr_id: 1,
        bsl_id: 1,
        version_pointer: 0xFFFFFFFF,
    };
    Settings {
        shown,
        protection: [0; 8],
        password: [0xFF; 32],
        reset_password: [0xFF; 16],
    }
}

// What bytes of another size say: settings with a reset mode that no call takes. Its numbers are all that it has.
pub fn none() -> Settings
    ensures { result ≡ no_settings }
{
    let shown = Shown {
        reset_mode: 255,
        alert: 0,
        readout: 0,
        settings_protected: 0,
        bcr_id: 0,
        bsl_id: 0,
        version_pointer: 0,
    };
    Settings {
        shown,
        protection: [0; 8],
        password: [0; 32],
        reset_password: [0; 16],
    }
}

// The same with protection of another size: of sectors of which nothing is said none is protected.
pub(crate) fn resized<const M: usize, const N: usize>(held: Held<M>) -> Held<N>
    ensures { result ≡ resized_of N held.entry }
{
    let mut protection = [0u8; N];
    octets::put(&mut protection, 0, &held.protection);
    Held {
        shown: held.shown,
        protection,
        password: held.password,
        reset_password: held.reset_password,
    }
}

// What a session keeps of a blank image.
pub fn blank_kept() -> Kept
    ensures { result ≡ blank_kept }
{
    resized::<8, 32>(blank())
}

// The same of the settings that a session keeps.
pub fn none_kept() -> Kept
    ensures { result ≡ no_kept }
{
    resized::<8, 32>(none())
}

// The name of an image that has none.
#[tactic(auto, unfolding(crate::specs::Values::no_name))]
pub(crate) fn no_name() -> [u8; 64]
    ensures { result ≡ no_name }
{
    [0xFF; NAME_SIZE]
}

// The contents of a blank image, which counts as form 1.
pub(crate) fn blank_contents() -> Contents
    ensures { result ≡ blank_contents }
{
    Contents {
        form: Form::One,
        settings: blank(),
        name: no_name(),
    }
}
