// A board and its session. Its settings flash is told by a row: reset mode, alert, readout, settings protection, the sectors 0 to 7 and the
// version pointer. A row with no bytes is a blank board.
use crate::rows::{self, Row};
use session::{Called, Session};
use session_state::{Phase, RATE_ID_AT_START, Standing};
use settings::{Contents, Form, IMAGE_SIZE, Settings, Shown};

const BOARD_BYTES: usize = 10;

// A board whose start is refused has no session, and every call of it is refused.
#[derive(Drop)]
pub(crate) struct Board {
    pub(crate) main: [u8; 4096],
    pub(crate) image: [u8; IMAGE_SIZE],
    window: [u8; 3456],
    session: Option<Session>,
}

fn shown_in(image: &[u8; IMAGE_SIZE]) -> Shown {
    Shown {
        reset_mode: image[0],
        alert: image[1],
        readout: octets::number16_at(image, 2),
        settings_protected: image[4],
        bcr_id: 0x1234,
        bsl_id: 0x5678,
        version_pointer: octets::number32_at(image, 6),
    }
}

// The last bit stands for a sector that no board here has.
fn settings_in(image: &[u8; IMAGE_SIZE]) -> Settings {
    Settings {
        shown: shown_in(image),
        protection: [image[5], 0, 0, 0, 0, 0, 0, 0x80],
        password: [0xA1; 32],
        reset_password: [0xB2; 16],
    }
}

impl Board {
    // A blank board. MAIN has no byte 0xFF at first.
    pub(crate) fn blank() -> Board {
        let main = [0x5A; 4096];
        let image = [0xFF; IMAGE_SIZE];
        let window = [0; 3456];
        let session = mspm0::start(false, &main, &image, &window).ok();
        Board {
            main,
            image,
            window,
            session,
        }
    }

    // The board of a row. Its flash holds the row's bytes, and then the settings, unless they are refused. The window is as the board before left
    // it.
    pub(crate) fn start(&mut self, row: &Row) {
        self.main = [0x5A; 4096];
        self.image = [0xFF; IMAGE_SIZE];
        if rows::has_bytes(row) {
            rows::put_bytes(row, &mut self.image[..BOARD_BYTES]);
            let contents = Contents {
                form: Form::One,
                settings: settings_in(&self.image),
                name: [0xFF; 64],
            };
            settings::write(contents, &mut self.image).ok();
        }
        self.session = mspm0::start(false, &self.main, &self.image, &self.window).ok();
    }

    // A call of the session, or none where it is refused.
    pub(crate) fn call(&mut self, wait: u32, packet: &[u8], reply: &mut [u8]) -> Option<Called> {
        let called = mspm0::call(
            self.session?,
            &mut self.main,
            &mut self.image,
            &mut self.window,
            wait,
            packet,
            reply,
        )
        .ok()?;
        self.session = Some(called.session);
        Some(called)
    }

    // How the session stands, or would at its start.
    pub(crate) fn standing(&self) -> Standing {
        match self.session {
            Some(session) => session.standing,
            None => Standing {
                phase: Phase::Detect,
                idle: 0,
                wrong: 0,
                rate: RATE_ID_AT_START,
                tries: 0,
            },
        }
    }
}
