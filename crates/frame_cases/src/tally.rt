// How many of some messages were sound, and how many spoiled at which place.
use frame::{Sound, Spoiled};
use std::fmt;

#[derive(Clone, Copy, Debug, Default, PartialEq, Eq)]
pub(crate) struct Tally {
    sound: u32,
    at_head: u32,
    at_length: u32,
    at_crc: u32,
    elsewhere: u32,
}

impl Tally {
    // One reading more, of a message whose CRC stands at `crc_place`.
    pub(crate) fn add(&mut self, answer: Result<Sound, Spoiled>, crc_place: usize) {
        let count = match answer {
            Ok(_) => &mut self.sound,
            Err(Spoiled { place: 0 }) => &mut self.at_head,
            Err(Spoiled { place: 2 }) => &mut self.at_length,
            Err(Spoiled { place }) if place == crc_place => &mut self.at_crc,
            Err(_) => &mut self.elsewhere,
        };
        *count = count.saturating_add(1);
    }
}

// Each count that is not nought.
impl fmt::Display for Tally {
    fn fmt<W: fmt::Write>(&self, f: &mut fmt::Formatter<W>) -> fmt::Result {
        let counts = [
            (self.sound, "sound"),
            (self.at_head, "spoiled at 0"),
            (self.at_length, "spoiled at 2"),
            (self.at_crc, "spoiled at the CRC"),
            (self.elsewhere, "spoiled elsewhere"),
        ];
        for (count, words) in counts {
            if count > 0 {
                write!(f, "; {count} {words}")?;
            }
        }
        Ok(())
    }
}
