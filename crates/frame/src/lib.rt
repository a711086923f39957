// Bytes on the wire: the CRC of 16 bits and the frames that it closes. Document 01, "A message and its reply".
//
// The crate knows no chip and no command. Where the CRC starts is an argument of everything here.
#![tactic(auto)]

mod crc16;
mod reader;
mod writer;

pub use crc16::crc;
pub use reader::{data_of, read, word_at};
use std::error::Error;
use std::fmt;
pub use writer::{word, write};

// The first byte of every frame.
const HEAD: u8 = 0x2D;

// The bytes of a frame beside its data: head, second byte, data length and CRC.
const OVERHEAD: usize = 6;

// As much data as two bytes of length can say.
const LONGEST: usize = 65535;

// What is told of a sound frame: its second byte, and how long its data is.
#[derive(Clone, Copy, Debug, PartialEq, Eq)]
pub struct Sound {
    pub second: u8,
    pub length: usize,
}

// A message that is no frame: the place where it went wrong.
#[derive(Clone, Copy, Debug, PartialEq, Eq)]
pub struct Spoiled {
    pub place: usize,
}

impl fmt::Display for Spoiled {
    fn fmt<W: fmt::Write>(&self, f: &mut fmt::Formatter<W>) -> fmt::Result {
        write!(f, "spoiled at {}", self.place)
    }
}

impl Error for Spoiled {}

// Why no frame was written.
#[derive(Clone, Copy, Debug, PartialEq, Eq)]
pub enum WriteError {
    // Two bytes of length cannot say how long the data is.
    TooLong,
    // The buffer is shorter than the frame.
    NoRoom,
}

impl fmt::Display for WriteError {
    fn fmt<W: fmt::Write>(&self, f: &mut fmt::Formatter<W>) -> fmt::Result {
        f.write_str(match self {
            WriteError::TooLong => "refused, the data is too long",
            WriteError::NoRoom => "refused, no room",
        })
    }
}

impl Error for WriteError {}
