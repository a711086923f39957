// Why an input could not be read on.
use std::error::Error;
use std::fmt;

// Why a block could not be read into; nothing was.
#[derive(Clone, Copy, Debug, PartialEq, Eq)]
pub enum FillError {
    // The block is full.
    Full,
    // The input cannot be read.
    Failed,
}

impl fmt::Display for FillError {
    fn fmt<W: fmt::Write>(&self, f: &mut fmt::Formatter<W>) -> fmt::Result {
        f.write_str(match self {
            FillError::Full => "the block is full",
            FillError::Failed => "the input cannot be read",
        })
    }
}

impl Error for FillError {}
