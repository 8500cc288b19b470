// What C calls of the AM13E230x's loader; include/bhorelmu.h has the names. Each is the function of `c_records` on this part's numbers, with an
// empty window, for the part has none.
#![tactic(auto)]

ghost use Rattle.std.specs.Prelude.{◌≡◌, []};
ghost use Rattle.parts.specs.Parts.{am13e230x};
ghost use Rattle.flash.specs.Memory.{memory};
ghost use Rattle.c_records.specs.Stored.{stored};
ghost use Rattle.c_records.specs.Boundary.{rate_from_c, start_from_c, called, call_from_c};
ghost use Rattle.c_records.specs.LargeFromC.{read_large_from_c, write_large_from_c};

use parts::Am13e230x;

// Starts a session, and stores its record. Any fuse but 0 is set.
#[unsafe(no_mangle)]
pub extern "C" fn bhorelmu_am13e230x_start(
    fuse: u32,
    main: &[u8],
    settings: &[u8],
    area: &mut [u8],
) -> u64
    ensures { stored result area.new ≡ start_from_c am13e230x fuse main.now settings.now [] area.old }
{
    let none = [0u8; 0];
    c_records::start_record(Am13e230x::part(), fuse, main, settings, &none, area)
}

// A call of the session whose record the area holds.
#[unsafe(no_mangle)]
pub extern "C" fn bhorelmu_am13e230x_call(
    area: &mut [u8],
    main: &mut [u8],
    settings: &mut [u8],
    wait: u32,
    packet: &[u8],
    reply: &mut [u8],
) -> u64
    ensures { called result area.new (memory main.new settings.new []) reply.new ≡ call_from_c am13e230x area.old (memory main.old settings.old []) wait packet.now reply.old }
{
    let mut none = [0u8; 0];
    c_records::call_record(
        Am13e230x::part(),
        area,
        main,
        settings,
        &mut none,
        wait,
        packet,
        reply,
    )
}

// Reads a settings image, and stores its fields.
#[unsafe(no_mangle)]
pub extern "C" fn bhorelmu_am13e230x_settings_read(image: &[u8], fields: &mut [u8]) -> u64
    ensures { stored result fields.new ≡ read_large_from_c image.now fields.old }
{
    c_records::read_large_image(image, fields)
}

// Writes the settings image of some fields.
#[unsafe(no_mangle)]
pub extern "C" fn bhorelmu_am13e230x_settings_write(fields: &[u8], image: &mut [u8]) -> u64
    ensures { stored result image.new ≡ write_large_from_c fields.now image.old }
{
    c_records::write_large_image(fields, image)
}

// The rate that has this id, in bits a second, or 0 where none has.
#[unsafe(no_mangle)]
pub extern "C" fn bhorelmu_am13e230x_rate(id: u32) -> u32
    ensures { result ≡ rate_from_c am13e230x id }
{
    c_records::rate_by_id(Am13e230x::part(), id)
}
