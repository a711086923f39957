// Why a text becomes no tape, as it is told on standard error.
use std::error::Error;
use std::{fmt, io};
use text::LineError;

#[derive(Clone, Copy, Debug, PartialEq, Eq)]
pub(crate) enum Failure {
    // The line of this number, counted from 1, is no message.
    Line { number: u64, error: LineError },
    // It is longer than the block.
    LongLine { number: u64 },
    Unreadable,
    Unwritable,
}

impl fmt::Display for Failure {
    fn fmt<W: fmt::Write>(&self, f: &mut fmt::Formatter<W>) -> fmt::Result {
        match *self {
            Failure::Line { number, error } => {
                write!(f, "line {number}")?;
                line(f, error)
            }
            Failure::LongLine { number } => {
                write!(f, "line {number}: more than 65,535 characters")
            }
            Failure::Unreadable => f.write_str("the text cannot be read"),
            Failure::Unwritable => f.write_str("the tape cannot be written"),
        }
    }
}

// What is wrong with a line. People count columns from 1. The buffers are longer than any message, so what has no room is too long.
fn line<W: fmt::Write>(f: &mut fmt::Formatter<W>, error: LineError) -> fmt::Result {
    match error {
        LineError::NotHex { place } => {
            let column = (place as u64).wrapping_add(1);
            write!(f, ", column {column}: {error}")
        }
        LineError::NoRoom => write!(f, ": {}", LineError::TooLong),
        _ => write!(f, ": {error}"),
    }
}

impl Error for Failure {}

// Only a tape that cannot be written brings one.
impl From<io::Error> for Failure {
    fn from(_error: io::Error) -> Failure {
        Failure::Unwritable
    }
}
