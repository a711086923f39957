// Why a tape is not played to its end, as it is told on standard error. What is wrong with the tape itself is told on the tape.
use std::error::Error;
use std::{fmt, io};
use stream::FillError;
use tm32::Refusal;

#[derive(Clone, Copy, Debug, PartialEq, Eq)]
pub(crate) enum BenchError {
    // The memory that is lent for the device has another length.
    Memory(Refusal),
    // The device refuses a message.
    Device(Refusal),
    // Standard input cannot be read on.
    Tape(FillError),
    // Standard output cannot be written.
    Replies,
}

impl fmt::Display for BenchError {
    fn fmt<W: fmt::Write>(&self, f: &mut fmt::Formatter<W>) -> fmt::Result {
        f.write_str(match self {
            BenchError::Memory(_) => "bench: the device's memory has another length",
            BenchError::Device(_) => "bench: the device does not answer",
            BenchError::Tape(FillError::Failed) => "bench: the tape cannot be read",
            BenchError::Tape(FillError::Full) => "bench: the tape cannot be held",
            BenchError::Replies => "bench: the replies cannot be written",
        })
    }
}

impl Error for BenchError {}

impl From<FillError> for BenchError {
    fn from(error: FillError) -> BenchError {
        BenchError::Tape(error)
    }
}

// Only replies that cannot be written bring one.
impl From<io::Error> for BenchError {
    fn from(_error: io::Error) -> BenchError {
        BenchError::Replies
    }
}
