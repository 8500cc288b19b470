// The settings of a board: as values, as the fields of an image, and as the image whole, read and written by one layout for each form.
#![tactic(auto)]

ghost use Rattle.std.specs.Prelude.{◌≡◌};
ghost use Rattle.settings.specs.Layout.{layout_of};
ghost use Rattle.settings.specs.Forms.{Numbers};
ghost use Rattle.settings.specs.declared.MoveError.TheVariants.{Image};

mod allowed;
mod checks;
mod fields_reader;
mod fields_writer;
mod layouts;
mod moves;
mod places;
mod presets;
mod reader;
mod table;
mod writer;

pub use allowed::are_allowed;
pub use checks::check_laid_out;
pub use fields_reader::{read_fields, read_kept};
pub use fields_writer::{put_fields, put_kept};
pub use layouts::ImageLayout;
pub use moves::{to_form_1, to_form_2};
pub use presets::{blank, blank_kept, none, none_kept};
pub use reader::{accepts, read, read_settings};
pub use writer::{put_laid_out, reseal, write};

// What may be shown of the settings: raw numbers, as they stand in bodies 3, 4 and 5. Numbers, since refusal 8 tells of values that an enum would not have.
#[derive(Clone, Copy, Debug, PartialEq, Eq)]
pub struct Shown {
    pub reset_mode: u8,
    pub alert: u8,
    pub readout: u16,
    pub settings_protected: u8,
    pub bcr_id: u32,
    pub bsl_id: u32,
    pub version_pointer: u32,
}

// The settings, with protection of so many bytes. The two passwords stand apart from all that may be shown. Nothing prints or compares these:
// no Debug, and no PartialEq, which stops at the first byte that differs.
#[derive(Clone, Copy)]
pub struct Held<const N: usize> {
    pub shown: Shown,
    pub protection: [u8; N],
    pub password: [u8; 32],
    pub reset_password: [u8; 16],
}

// Those of an MSPM0's image.
pub type Settings = Held<8>;

// What a session keeps of them, on either part: with protection for as many sectors as the larger one has.
pub type Kept = Held<32>;

// The forms of an image: 01's, and the one with a name.
#[derive(Clone, Copy, Debug, PartialEq, Eq)]
pub enum Form {
    One,
    Two,
}

// No form has the number.
#[derive(Clone, Copy, Debug, PartialEq, Eq)]
pub struct UnknownForm;

impl From<Form> for u16 {
    ghost from_gives = { λ form number. number ≡ (layout_of form).form };

    fn from(form: Form) -> u16 {
        match form {
            Form::One => 1,
            Form::Two => 2,
        }
    }
}

impl TryFrom<u16> for Form {
    type Error = UnknownForm;

    ghost try_from_gives = { Numbers };

    #[tactic(auto, unfolding(crate::specs::Forms::is_form_number, octets::specs::Choice::pick))]
    fn try_from(number: u16) -> Result<Form, UnknownForm> {
        match number {
            1 => Ok(Form::One),
            2 => Ok(Form::Two),
            _ => Err(UnknownForm),
        }
    }
}

// What an image holds: the settings, and beside them its form and a name.
#[derive(Clone, Copy)]
pub struct ImageContents<const N: usize> {
    pub form: Form,
    pub settings: Held<N>,
    pub name: [u8; 64],
}

// That of an MSPM0.
pub type Contents = ImageContents<8>;

// Where each of the six bodies begins, among them: the first at the start, each other where the one before it ends.
const PASSWORD_AT: usize = 0;

const RESET_PASSWORD_AT: usize = PASSWORD_AT + 32;

const VALUES_AT: usize = RESET_PASSWORD_AT + 16;

const IDS_AT: usize = VALUES_AT + 6;

const POINTER_AT: usize = IDS_AT + 8;

const PROTECTION_AT: usize = POINTER_AT + 4;

// How many bytes the six have, and how many a name.
pub const FIELDS_SIZE: usize = PROTECTION_AT + 8;

pub const NAME_SIZE: usize = 64;

// The same with the protection that a session keeps.
pub const KEPT_SIZE: usize = PROTECTION_AT + 32;

// Where the name begins, in an image that has one.
const NAME_AT: usize = 134;

// The last byte of body 3, which is 0 in every image that is accepted.
pub const ZERO_AT: usize = IDS_AT - 1;

// The size of an image, and where its checksum stands: at the end of what it is the checksum of.
pub const IMAGE_SIZE: usize = 1024;

pub const CHECKSUM_AT: usize = 1020;

// Why an image is refused. An entry is told by its number, counted from 1.
#[derive(Clone, Copy, Debug, PartialEq, Eq)]
pub enum Refusal {
    SizeWrong,
    ChecksumDiffers,
    FormUnknown,
    EntryDiffers(u8),
    FillerDiffers,
    ValueNotAllowed,
}

// Why the writer refuses.
#[derive(Clone, Copy, Debug, PartialEq, Eq)]
pub enum WriteError {
    SizeWrong,
    ValueNotAllowed,
    NameNotEmpty,
}

// Why a move is refused.
#[derive(Clone, Copy, Debug, PartialEq, Eq)]
pub enum MoveError {
    Image(Refusal),
    NameNotEmpty,
}

impl From<Refusal> for MoveError {
    ghost from_gives = { λ refusal error. error ≡ Image refusal };

    fn from(refusal: Refusal) -> MoveError {
        MoveError::Image(refusal)
    }
}

// Which forms are taken: by the reader both, by a move the one that it starts from. No `Option<Form>`: its `None` would have to say both.
#[derive(Clone, Copy, Debug, PartialEq, Eq)]
pub enum Forms {
    Both,
    OnlyOne,
    OnlyTwo,
}
