// The bench tape: records of any kind, and a tape of messages played on a device. Document 01, "The bench tape".
#![tactic(auto)]

ghost use Rattle.std.specs.Prelude.{◌≡◌};
ghost use Rattle.tape.specs.Stops.{Tells, error_number};
ghost use Rattle.tape.specs.declared.Stop.TheVariants as stops;

mod blocks;
mod player;
mod records;
mod script;
mod starting;

pub use blocks::keep_rest;
pub use player::{ERROR, REPLY, play};
pub use records::{HEAD_LENGTH, body_of, record_in};
pub use script::MESSAGE;
pub use starting::{fresh, fresh_settings};
use std::error::Error;
use std::fmt;
use tm32::{Refusal, Session};

// What the head of a record says: how long the body is, and the record's kind.
#[derive(Clone, Copy, Debug, PartialEq, Eq)]
pub struct Head {
    pub length: u16,
    pub kind: u16,
}

// What stands at the start of a tape: four answers, which neither an Option nor a Result tells apart.
#[derive(Clone, Copy, Debug, PartialEq, Eq)]
pub enum Found {
    // Nothing at all.
    Nothing,
    // Fewer bytes than a head has.
    HeadCut,
    // A whole head, and not all of the body.
    BodyCut(Head),
    // A whole record.
    Whole(Head),
}

// What is wrong with a tape. The error record tells 01's number for it.
#[derive(Clone, Copy, Debug, PartialEq, Eq)]
pub enum TapeError {
    // The input ends in the middle of a record.
    CutShort = 1,
    // A record is no message.
    UnknownKind = 2,
    // A body is longer than a message may be.
    TooLong = 3,
}

// Why the player stopped.
#[derive(Clone, Copy, Debug, PartialEq, Eq)]
pub enum Stop {
    // All whole records were played, and the input does not end here.
    MoreTape,
    // There is too little room for another record.
    Room,
    // All records were played, and the input ends here.
    End,
    // The tape is not as it should be.
    Error(TapeError),
    // The device refused a message, which was not used.
    Refused(Refusal),
}

// What playing leaves behind: the session from then on, how many bytes of the tape were used and how many of the buffer were
// written, and why the player stopped. Counts beside lent slices, since nothing is allocated.
#[derive(Clone, Copy, Debug, PartialEq, Eq)]
pub struct Played {
    pub session: Session,
    pub used: usize,
    pub written: usize,
    pub stop: Stop,
}

impl TapeError {
    // 01's number for it, 1 to 3. By name, and not by From: a caller says which number it means.
    pub fn number(self) -> u8
        ensures { result ≡ error_number self }
    {
        self as u8
    }
}

// A number that no error of a tape has.
#[derive(Clone, Copy, Debug, PartialEq, Eq)]
pub struct NoTapeError(pub u8);

impl TryFrom<u8> for TapeError {
    type Error = NoTapeError;

    ghost try_from_gives = { Tells };

    fn try_from(number: u8) -> Result<Self, NoTapeError> {
        match number {
            1 => Ok(TapeError::CutShort),
            2 => Ok(TapeError::UnknownKind),
            3 => Ok(TapeError::TooLong),
            _ => Err(NoTapeError(number)),
        }
    }
}

impl fmt::Display for TapeError {
    fn fmt<W: fmt::Write>(&self, f: &mut fmt::Formatter<W>) -> fmt::Result {
        f.write_str(match self {
            TapeError::CutShort => "the tape is cut short",
            TapeError::UnknownKind => "a record of unknown kind",
            TapeError::TooLong => "a body above 2,048 bytes",
        })
    }
}

impl Error for TapeError {}

impl fmt::Display for NoTapeError {
    fn fmt<W: fmt::Write>(&self, f: &mut fmt::Formatter<W>) -> fmt::Result {
        write!(f, "no error of a tape has the number {}", self.0)
    }
}

impl Error for NoTapeError {}

impl From<TapeError> for Stop {
    ghost from_gives = { λ error stop. stop ≡ stops.Error error };

    fn from(error: TapeError) -> Stop {
        Stop::Error(error)
    }
}

impl From<Refusal> for Stop {
    ghost from_gives = { λ refusal stop. stop ≡ stops.Refused refusal };

    fn from(refusal: Refusal) -> Stop {
        Stop::Refused(refusal)
    }
}
