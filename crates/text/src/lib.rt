// The text form of bytes and of a message: a line in hex, with blanks and a comment; or a command and its data, behind a `>`, to be framed.
#![tactic(auto)]

mod lines;
mod numbers;
mod reader;
mod writer;

ghost use Rattle.std.specs.Prelude.{◌≡◌};
ghost use Rattle.text.specs.Lines.{frame_refused, hex_refused};

use frame::WriteError;
pub use lines::{line_end, message_in};
pub use numbers::word_in;
pub use reader::{bytes_in, digit_of};
use std::error::Error;
use std::fmt;
pub use writer::hex_of;

// Why bytes in hex were not read.
#[derive(Clone, Copy, Debug, PartialEq, Eq)]
pub enum HexError {
    // The first character that is wrong stands at this place of the line, counted from 0. A byte that the end of the line cuts in
    // two is wrong where its second digit is missed.
    NotHex { place: usize },
    // The buffer is shorter than the bytes.
    NoRoom,
}

impl fmt::Display for HexError {
    fn fmt<W: fmt::Write>(&self, f: &mut fmt::Formatter<W>) -> fmt::Result {
        f.write_str(match self {
            HexError::NotHex { .. } => "not a hex digit",
            HexError::NoRoom => "no room for the bytes",
        })
    }
}

impl Error for HexError {}

// Why a line of text is no message.
#[derive(Clone, Copy, Debug, PartialEq, Eq)]
pub enum LineError {
    // The first character that is wrong stands at this place of the line, counted from 0.
    NotHex { place: usize },
    // No command stands behind the `>`.
    NoCommand,
    // A frame cannot say how long the data is.
    TooLong,
    // The scratch buffer is shorter than the line's bytes, or the message's buffer shorter than the message.
    NoRoom,
}

impl fmt::Display for LineError {
    fn fmt<W: fmt::Write>(&self, f: &mut fmt::Formatter<W>) -> fmt::Result {
        f.write_str(match self {
            LineError::NotHex { .. } => "not a hex digit",
            LineError::NoCommand => "no command behind the >",
            LineError::TooLong => "a message of more than 65,535 bytes",
            LineError::NoRoom => "no room for the message",
        })
    }
}

impl Error for LineError {}

impl From<HexError> for LineError {
    ghost from_gives = { λ error refused. refused ≡ hex_refused error };

    fn from(error: HexError) -> LineError {
        match error {
            HexError::NotHex { place } => LineError::NotHex { place },
            HexError::NoRoom => LineError::NoRoom,
        }
    }
}

impl From<WriteError> for LineError {
    ghost from_gives = { λ error refused. refused ≡ frame_refused error };

    fn from(error: WriteError) -> LineError {
        match error {
            WriteError::TooLong => LineError::TooLong,
            WriteError::NoRoom => LineError::NoRoom,
        }
    }
}
