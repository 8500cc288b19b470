// Starting a session: the refusals of document 01 in their order, or the session.
ghost use Rattle.std.specs.Prelude.{◌≡◌};
ghost use Rattle.session_state.specs.Phases.{at_start};
ghost use Rattle.settings.specs.Answers.{settings_told};
ghost use Rattle.session.specs.Starting.{session_of, start_told, settings_read, start_of};

use crate::{Session, StartError};
use parts::Part;
use session_state::{Phase, RATE_ID_AT_START, Standing};
use settings::{Kept, Refusal};

// How a session stands at start.
#[tactic(auto, unfolding(session_state::specs::Phases::at_start))]
fn at_start() -> Standing
    ensures { result ≡ at_start }
{
    Standing {
        phase: Phase::Detect,
        idle: 0,
        wrong: 0,
        rate: RATE_ID_AT_START,
        tries: 0,
    }
}

// The session of a board with this size of MAIN and these settings.
fn session_of(main_size: u32, settings: Kept) -> Session
    ensures { result ≡ session_of main_size settings }
{
    Session {
        standing: at_start(),
        main_size,
        settings,
    }
}

// What is read of an image, by its size: one of 2,048 bytes is the larger part's.
#[tactic(auto, unfolding(crate::specs::Starting::settings_read, octets::specs::Choice::pick))]
fn read_image(image: &[u8]) -> Result<Kept, Refusal>
    ensures { settings_told result ≡ settings_read image.now }
{
    if image.len() == settings_large::IMAGE_SIZE {
        return settings_large::read_settings(image);
    }
    settings::read_settings(image)
}

// Starts a session on a board of this part: its fuse, its MAIN flash, its settings flash and its SRAM window, of which the size alone is looked at.
#[tactic(auto, using(flash::proofs::RegionLaws::main_size_is_small, settings::proofs::ReaderLaws::refuses), unfolding(crate::specs::Starting::start_of, crate::specs::Starting::start_read, octets::specs::Choice::pick))]
pub fn start(
    part: Part,
    fuse: bool,
    main: &[u8],
    image: &[u8],
    window: &[u8],
) -> Result<Session, StartError>
    ensures { start_told result ≡ start_of part fuse main.now image.now window.now }
{
    if fuse {
        return Err(StartError::FuseSet);
    }
    let size = main.len();
    if !flash::is_main_size(part, size) {
        return Err(StartError::MainSizeWrong);
    }
    if image.len() != part.settings_size as usize {
        return Err(StartError::Image(Refusal::SizeWrong));
    }
    if window.len() != part.window_size as usize {
        return Err(StartError::WindowSizeWrong);
    }
    Ok(session_of(size as u32, read_image(image)?))
}
