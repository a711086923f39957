// Why a command line is refused, as it is told on standard error.
use std::error::Error;
use std::fmt;

#[derive(Clone, Copy, Debug, PartialEq, Eq)]
pub enum ArgumentError {
    // What stands behind `--start` is not one to four hex digits.
    NotHex,
    // Something else stands on the command line.
    NoSuch,
}

impl fmt::Display for ArgumentError {
    fn fmt<W: fmt::Write>(&self, f: &mut fmt::Formatter<W>) -> fmt::Result {
        f.write_str(match self {
            ArgumentError::NotHex => "--start: the start value is not one to four hex digits",
            ArgumentError::NoSuch => {
                "the command line takes --start and a start value, and nothing else"
            }
        })
    }
}

impl Error for ArgumentError {}
