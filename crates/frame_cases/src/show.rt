// Bytes and answers as they are printed.
use frame::{Sound, Spoiled, WriteError};
use std::fmt;

// Bytes as 01 prints them, with a space between two. The device's cases print bytes by themselves: the crate that both stand on prints none.
#[derive(Clone, Copy, Debug)]
pub(crate) struct Bytes<'a>(pub(crate) &'a [u8]);

impl fmt::Display for Bytes<'_> {
    fn fmt<W: fmt::Write>(&self, f: &mut fmt::Formatter<W>) -> fmt::Result {
        let [first, others @ ..] = self.0 else {
            return f.write_str("none");
        };
        write!(f, "{first:02X}")?;
        for byte in others {
            write!(f, " {byte:02X}")?;
        }
        Ok(())
    }
}

// How a message was read.
#[derive(Clone, Copy, Debug)]
pub(crate) struct Reading(pub(crate) Result<Sound, Spoiled>);

impl fmt::Display for Reading {
    fn fmt<W: fmt::Write>(&self, f: &mut fmt::Formatter<W>) -> fmt::Result {
        match self.0 {
            Ok(Sound { second, length }) => {
                write!(f, "sound, second byte {second:02X}, data length {length}")
            }
            Err(spoiled) => write!(f, "{spoiled}"),
        }
    }
}

// What came of writing.
#[derive(Clone, Copy, Debug)]
pub(crate) struct Writing(pub(crate) Result<usize, WriteError>);

impl fmt::Display for Writing {
    fn fmt<W: fmt::Write>(&self, f: &mut fmt::Formatter<W>) -> fmt::Result {
        match self.0 {
            Ok(length) => write!(f, "written, {length} bytes"),
            Err(refused) => write!(f, "{refused}"),
        }
    }
}
