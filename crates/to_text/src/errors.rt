// Why a tape becomes no text, as it is told on standard error.
use std::error::Error;
use std::{fmt, io};

#[derive(Clone, Copy, Debug, PartialEq, Eq)]
pub(crate) enum Failure {
    LongRecord,
    Unreadable,
    Unwritable,
}

impl fmt::Display for Failure {
    fn fmt<W: fmt::Write>(&self, f: &mut fmt::Formatter<W>) -> fmt::Result {
        f.write_str(match self {
            Failure::LongRecord => "a record is longer than the block",
            Failure::Unreadable => "the tape cannot be read",
            Failure::Unwritable => "the text cannot be written",
        })
    }
}

impl Error for Failure {}

// Only a text that cannot be written brings one.
impl From<io::Error> for Failure {
    fn from(_error: io::Error) -> Failure {
        Failure::Unwritable
    }
}
