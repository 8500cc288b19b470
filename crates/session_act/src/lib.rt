// Acting: what was judged is planned, and the plan is carried out on memory. `as` stands where std has no `From`, to and from `usize`.
#![tactic(auto)]

ghost use Rattle.std.specs.Prelude.{◌≡◌};
ghost use Rattle.session_act.specs.Board.{board_in, place_on};

mod erasing;
mod orders;
mod planning;
mod plans;
mod programming;
mod showing;
mod telling;

use flash::{Place, Region};
use line::Reply;
pub use orders::carry_out;
use parts::Part;
pub use planning::plan;
use settings::Shown;

// A board as its settings let it be changed: its part, the size of MAIN, the settings that may be shown, and the protection of MAIN's sectors.
// No password is among them.
#[derive(Clone, Copy)]
pub struct Site<'a> {
    pub part: Part,
    pub main_size: u32,
    pub shown: Shown,
    pub protection: &'a [u8],
}

impl Site<'_> {
    // The place of so many bytes from an address on.
    pub(crate) fn locate(self, first: u32, count: u64) -> Place
        ensures { result ≡ place_on (board_in self.entry) first count }
    {
        flash::locate(
            self.part,
            self.main_size,
            self.protection,
            self.shown.settings_protected,
            first,
            count,
        )
    }
}

// All that can be done to memory. Places are counted from the start of a region; the data of a program are those of the packet.
#[derive(Clone, Copy, Debug, PartialEq, Eq)]
pub enum Order {
    Keep,
    EraseBetween { start: u32, end: u32 },
    EraseMain,
    // MAIN first, the settings last: settings that are blank while MAIN is not yet would open MAIN to whoever cuts the power there.
    EraseBoth,
    ProgramMain { offset: usize, size: u32 },
    ProgramSettings { offset: usize, size: u32 },
    StoreWindow { offset: usize, size: u32 },
}

// What is answered, what is to be done, and where the bytes stand that go with the answer, and how many: none but for Read back, and for
// the version that Info tells.
#[derive(Clone, Copy, Debug, PartialEq, Eq)]
pub struct Planned {
    pub reply: Reply,
    pub order: Order,
    pub region: Region,
    pub offset: usize,
    pub count: u32,
}
