// What the bodies say.
ghost use Rattle.std.specs.Prelude.{◌≡◌, ◌++◌, ◌≤◌, length, replicate};
ghost use Rattle.octets.specs.Number.{part};
ghost use Rattle.settings.specs.Layout.{form1};
ghost use Rattle.settings.specs.Bodies.{shown_in};
ghost use Rattle.settings.specs.Fields.{fields_read};
ghost use Rattle.settings.specs.Kept.{filled_up, is_fields_size, kept_read};

use crate::{
    FIELDS_SIZE, IDS_AT, KEPT_SIZE, Kept, PASSWORD_AT, POINTER_AT, PROTECTION_AT,
    RESET_PASSWORD_AT, Settings, Shown, VALUES_AT, presets,
};

// What bodies 3, 4 and 5 say.
#[tactic(auto, unfolding(crate::specs::Bodies::shown_in, crate::specs::Layout::offset_of, crate::specs::Layout::sum_of))]
fn shown_in(fields: &[u8]) -> Shown
    ensures { result ≡ shown_in form1 (replicate 52 0 ++ fields.now) }
{
    let values = octets::part_of(fields, VALUES_AT, 6);
    let ids = octets::part_of(fields, IDS_AT, 8);
    let pointer = octets::part_of(fields, POINTER_AT, 4);
    Shown {
        reset_mode: octets::byte_at(values, 0),
        alert: octets::byte_at(values, 1),
        readout: octets::number16_at(values, 2),
        settings_protected: octets::byte_at(values, 4),
        bcr_id: octets::number32_at(ids, 0),
        bsl_id: octets::number32_at(ids, 4),
        version_pointer: octets::number32_at(pointer, 0),
    }
}

// The bodies that are arrays.
fn password_in(fields: &[u8]) -> [u8; 32]
    requires { 74 ≤ length fields.now }
    ensures { result ≡ part 0 32 fields.now }
{
    let mut array = [0u8; 32];
    octets::put(&mut array, 0, octets::part_of(fields, PASSWORD_AT, 32));
    array
}

fn reset_password_in(fields: &[u8]) -> [u8; 16]
    requires { 74 ≤ length fields.now }
    ensures { result ≡ part 32 16 fields.now }
{
    let mut array = [0u8; 16];
    octets::put(
        &mut array,
        0,
        octets::part_of(fields, RESET_PASSWORD_AT, 16),
    );
    array
}

// As many bytes of it as there are, and zeros after them.
fn protection_in(fields: &[u8]) -> [u8; 32]
    ensures { result ≡ filled_up (part 66 32 fields.now) }
{
    let mut array = [0u8; 32];
    octets::put(&mut array, 0, octets::part_of(fields, PROTECTION_AT, 32));
    array
}

// Whether fields may have so many bytes: those of an MSPM0, or of the larger part.
#[tactic(auto, unfolding(crate::specs::Kept::is_fields_size, octets::specs::Choice::pick))]
fn is_fields_size(size: usize) -> bool
    ensures { result ≡ is_fields_size size }
{
    size == FIELDS_SIZE || size == KEPT_SIZE
}

// What a session keeps of fields, of either part. Bytes of another size say none. Each body is read here alone: a second place that reads
// them would keep the compiler from reading a record where it lies.
#[tactic(auto, using(crate::proofs::KeptLaws::least_fields, crate::proofs::KeptLaws::no_fields, crate::proofs::KeptLaws::kept_by_bodies))]
pub fn read_kept(fields: &[u8]) -> Kept
    ensures { result ≡ kept_read fields.now }
{
    if !is_fields_size(fields.len()) {
        return presets::none_kept();
    }
    let shown = shown_in(fields);
    let protection = protection_in(fields);
    let password = password_in(fields);
    let reset_password = reset_password_in(fields);
    Kept {
        shown,
        protection,
        password,
        reset_password,
    }
}

// The settings that some fields say. Bytes of another size say none.
#[tactic(auto, using(crate::proofs::KeptLaws::narrowed_back), unfolding(crate::specs::Fields::fields_read, crate::specs::Layout::offset_of, crate::specs::Layout::sum_of, octets::specs::Choice::pick))]
pub fn read_fields(fields: &[u8]) -> Settings
    ensures { result ≡ fields_read form1 fields.now }
{
    if fields.len() != FIELDS_SIZE {
        return presets::none();
    }
    presets::resized::<32, 8>(read_kept(fields))
}
