// What C calls of the MSPM0's loader; include/bhorelmu.h has the names. Each is the function of `c_records` on this part's numbers.
#![tactic(auto)]

ghost use Rattle.std.specs.Prelude.{◌≡◌};
ghost use Rattle.parts.specs.Parts.{mspm0};
ghost use Rattle.flash.specs.Memory.{memory};
ghost use Rattle.c_records.specs.Stored.{stored};
ghost use Rattle.c_records.specs.Boundary.{rate_from_c, start_from_c, called, call_from_c};
ghost use Rattle.c_records.specs.SettingsFromC.{read_from_c, write_from_c, to_one_from_c, to_two_from_c};
ghost use Rattle.c_records.specs.MendFromC.{mend_stored, mend_from_c};

use parts::Mspm0;

// Starts a session, and stores its record. Any fuse but 0 is set.
#[unsafe(no_mangle)]
pub extern "C" fn bhorelmu_start(
    fuse: u32,
    main: &[u8],
    settings: &[u8],
    window: &[u8],
    area: &mut [u8],
) -> u64
    ensures { stored result area.new ≡ start_from_c mspm0 fuse main.now settings.now window.now area.old }
{
    c_records::start_record(Mspm0::part(), fuse, main, settings, window, area)
}

// A call of the session whose record the area holds.
#[unsafe(no_mangle)]
pub extern "C" fn bhorelmu_call(
    area: &mut [u8],
    main: &mut [u8],
    settings: &mut [u8],
    window: &mut [u8],
    wait: u32,
    packet: &[u8],
    reply: &mut [u8],
) -> u64
    ensures { called result area.new (memory main.new settings.new window.new) reply.new ≡ call_from_c mspm0 area.old (memory main.old settings.old window.old) wait packet.now reply.old }
{
    c_records::call_record(
        Mspm0::part(),
        area,
        main,
        settings,
        window,
        wait,
        packet,
        reply,
    )
}

// Reads a settings image, and stores its fields.
#[unsafe(no_mangle)]
pub extern "C" fn bhorelmu_settings_read(image: &[u8], fields: &mut [u8]) -> u64
    ensures { stored result fields.new ≡ read_from_c image.now fields.old }
{
    c_records::read_image(image, fields)
}

// Writes the settings image of some fields.
#[unsafe(no_mangle)]
pub extern "C" fn bhorelmu_settings_write(fields: &[u8], image: &mut [u8]) -> u64
    ensures { stored result image.new ≡ write_from_c fields.now image.old }
{
    c_records::write_image(fields, image)
}

// Moves a settings image of form 1 to form 2, where it lies.
#[unsafe(no_mangle)]
pub extern "C" fn bhorelmu_settings_to_form_2(image: &mut [u8]) -> u64
    ensures { stored result image.new ≡ to_two_from_c image.old }
{
    c_records::move_to_form_2(image)
}

// Moves a settings image of form 2 back to form 1, where its name is all 0xFF.
#[unsafe(no_mangle)]
pub extern "C" fn bhorelmu_settings_to_form_1(image: &mut [u8]) -> u64
    ensures { stored result image.new ≡ to_one_from_c image.old }
{
    c_records::move_to_form_1(image)
}

// Mends a settings image where it lies, and stores how many bytes were changed.
#[unsafe(no_mangle)]
pub extern "C" fn bhorelmu_settings_mend(image: &mut [u8], counts: &mut [u8]) -> u64
    ensures { mend_stored result image.new counts.new ≡ mend_from_c image.old counts.old }
{
    c_records::mend_image(image, counts)
}

// The rate that has this id, in bits a second, or 0 where none has.
#[unsafe(no_mangle)]
pub extern "C" fn bhorelmu_rate(id: u32) -> u32
    ensures { result ≡ rate_from_c mspm0 id }
{
    c_records::rate_by_id(Mspm0::part(), id)
}
