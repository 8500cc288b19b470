// The answers of the reader, the writer and the moves, told by the numbers that the documents give them.
use c_records::REFUSAL_UNIT;
use settings::{MoveError, Refusal, WriteError};
use std::{fmt, io};

// Why something is refused, as the number that C is answered with: the refusal in the top byte, and the entry that goes with 6 below it.
#[derive(Clone, Copy, Debug, PartialEq, Eq)]
pub(crate) struct Refused(u64);

impl From<Refusal> for Refused {
    fn from(refusal: Refusal) -> Refused {
        Refused(c_records::of_refusal(refusal))
    }
}

impl From<WriteError> for Refused {
    fn from(error: WriteError) -> Refused {
        Refused(match error {
            WriteError::SizeWrong => c_records::SETTINGS_SIZE_WRONG,
            WriteError::ValueNotAllowed => c_records::VALUE_NOT_ALLOWED,
            WriteError::NameNotEmpty => c_records::NAME_NOT_EMPTY,
        })
    }
}

impl From<MoveError> for Refused {
    fn from(error: MoveError) -> Refused {
        match error {
            MoveError::Image(refusal) => Refused::from(refusal),
            MoveError::NameNotEmpty => Refused(c_records::NAME_NOT_EMPTY),
        }
    }
}

impl fmt::Display for Refused {
    fn fmt<W: fmt::Write>(&self, f: &mut fmt::Formatter<W>) -> fmt::Result {
        let refusal = self.0 / REFUSAL_UNIT;
        let entry = self.0 % REFUSAL_UNIT;
        write!(f, "refused {refusal}")?;
        if entry != 0 {
            write!(f, " at entry {entry}")?;
        }
        Ok(())
    }
}

// The line of an answer, and what is told beside it.
pub(crate) fn show_answer<T: Drop, E: Into<Refused>>(
    rt: &impl Print,
    name: &str,
    answer: Result<T, E>,
    beside: &str,
) -> io::Result<()> {
    match answer {
        Ok(_) => println!(rt; "{name:>21}: accepted{beside}"),
        Err(error) => {
            let refused: Refused = error.into();
            println!(rt; "{name:>21}: {refused}{beside}")
        }
    }
}
