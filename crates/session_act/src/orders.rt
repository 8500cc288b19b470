// Orders: what was planned is done to memory.
ghost use Rattle.std.specs.Prelude.{◌≡◌};
ghost use Rattle.line.specs.Packet.{data_in};
ghost use Rattle.flash.specs.Memory.{memory};
ghost use Rattle.session_act.specs.Orders.{carried_out};

use crate::{Order, Site};
use flash::Sectors;

// The data of a program, which are the packet's.
fn data_in(packet: &[u8], size: u32) -> &[u8]
    ensures { result.now ≡ data_in size packet.now }
{
    octets::part_of(packet, line::SECOND_AT, size as usize)
}

// Does an order. Protected sectors keep their bytes, and the SRAM window changes by a store alone. The settings flash is one sector, and the number
// is its bit. No struct of the three: of each `&mut` in one, every function would have to promise that it is still the same.
pub fn carry_out(
    site: Site<'_>,
    order: Order,
    packet: &[u8],
    main: &mut [u8],
    image: &mut [u8],
    window: &mut [u8],
)
    ensures { memory main.new image.new window.new ≡ carried_out site.entry.part site.entry.shown site.entry.protection.now packet.now (memory main.old image.old window.old) order }
{
    let sectors = Sectors {
        size: site.part.sector_size as usize,
        protection: site.protection,
    };
    let settings_sectors = Sectors {
        protection: &[site.shown.settings_protected],
        ..sectors
    };
    match order {
        Order::Keep => {}
        Order::EraseBetween { start, end } => {
            flash::erase_between(main, sectors, start as usize, end as usize)
        }
        Order::EraseMain => flash::erase_all(main, sectors),
        // MAIN first: `Order` tells why
        Order::EraseBoth => {
            flash::erase_all(main, sectors);
            flash::erase_all(image, settings_sectors);
        }
        Order::ProgramMain { offset, size } => {
            flash::program(main, sectors, offset, data_in(packet, size))
        }
        Order::ProgramSettings { offset, size } => {
            flash::program(image, settings_sectors, offset, data_in(packet, size))
        }
        Order::StoreWindow { offset, size } => octets::put(window, offset, data_in(packet, size)),
    }
}
