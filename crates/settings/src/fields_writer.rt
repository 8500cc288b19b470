// The bodies stored.
ghost use Rattle.std.specs.Prelude.{◌≡◌, ◌++◌, ◌≤◌};
ghost use Rattle.std.proofs.lemmas.List.Edits.{sets};
ghost use Rattle.settings.specs.Bodies.{values_of, numbers_of, bodies_of};
ghost use Rattle.settings.specs.Kept.{held_bodies, kept_bodies};

use crate::{
    FIELDS_SIZE, Held, KEPT_SIZE, Kept, PASSWORD_AT, PROTECTION_AT, RESET_PASSWORD_AT, Settings,
    Shown, VALUES_AT,
};

// Bodies 3 to 5: six bytes, then three numbers of four.
#[tactic(auto, unfolding(octets::specs::Number::bytes_of))]
fn shown_of(shown: Shown) -> [u8; 18]
    ensures { result ≡ values_of shown ++ numbers_of shown }
{
    let mut bodies = [0u8; 18];
    bodies[0] = shown.reset_mode;
    bodies[1] = shown.alert;
    bodies[4] = shown.settings_protected;
    octets::put_number(&mut bodies, 2, 2, shown.readout as u32);
    octets::put_number(&mut bodies, 6, 4, shown.bcr_id);
    octets::put_number(&mut bodies, 10, 4, shown.bsl_id);
    octets::put_number(&mut bodies, 14, 4, shown.version_pointer);
    bodies
}

// Bodies 1 to 5, one after the other.
#[tactic(auto, using(crate::proofs::BodyLaws::five_joined))]
fn first_five(password: [u8; 32], reset_password: [u8; 16], shown: [u8; 18]) -> [u8; 66]
    ensures { result ≡ password ++ (reset_password ++ shown) }
{
    let mut fields = [0u8; PROTECTION_AT];
    octets::put(&mut fields, PASSWORD_AT, &password);
    octets::put(&mut fields, RESET_PASSWORD_AT, &reset_password);
    octets::put(&mut fields, VALUES_AT, &shown);
    fields
}

// Stores the six bodies from a place on, as many bytes as there is room for.
fn put_bodies<const N: usize>(area: &mut [u8], at: usize, held: Held<N>)
    requires { N ≤ 32 }
    ensures { area.new ≡ sets area.old at (held_bodies held.entry) }
{
    let five = first_five(held.password, held.reset_password, shown_of(held.shown));
    let mut bodies = [0u8; KEPT_SIZE];
    octets::put(&mut bodies, PASSWORD_AT, &five);
    octets::put(&mut bodies, PROTECTION_AT, &held.protection);
    octets::put(area, at, octets::part_of(&bodies, 0, PROTECTION_AT + N));
}

// The fields of some settings.
pub(crate) fn fields_of(settings: Settings) -> [u8; 74]
    ensures { result ≡ bodies_of settings }
{
    let mut fields = [0u8; FIELDS_SIZE];
    put_bodies::<8>(&mut fields, 0, settings);
    fields
}

// Stores the fields of some settings from a place on, where there is room for them.
#[tactic(auto, unfolding(crate::specs::Bodies::bodies_of))]
pub fn put_fields(area: &mut [u8], at: usize, settings: Settings)
    ensures { area.new ≡ sets area.old at (bodies_of settings) }
{
    put_bodies::<8>(area, at, settings);
}

// Stores the fields of what a session keeps from a place on, as many bytes as there is room for.
#[tactic(auto, unfolding(crate::specs::Kept::kept_bodies))]
pub fn put_kept(area: &mut [u8], at: usize, kept: Kept)
    ensures { area.new ≡ sets area.old at (kept_bodies kept) }
{
    put_bodies::<32>(area, at, kept);
}
