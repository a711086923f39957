// Writing a frame: what is a request and what a reply is for the caller to know.
ghost use Rattle.std.specs.Prelude.{◌≡◌};
ghost use Rattle.frame.specs.Frame.{outcome, word, writing};

use crate::crc16::crc;
use crate::{HEAD, LONGEST, OVERHEAD, WriteError};

// Writes the frame of a second byte and data over the start of a buffer. A refusal leaves every byte of it alone.
#[tactic(auto, using(crate::proofs::Places::closed), unfolding(crate::specs::Frame::writing, crate::specs::Frame::covered, crate::specs::Frame::word))]
pub fn write(start: u16, second: u8, payload: &[u8], buffer: &mut [u8]) -> Result<usize, WriteError>
    ensures { outcome result buffer.new ≡ writing start second payload.now buffer.old }
{
    if payload.len() > LONGEST {
        return Err(WriteError::TooLong);
    }
    let length = payload.len() + OVERHEAD;
    if buffer.len() < length {
        return Err(WriteError::NoRoom);
    }
    let (covered, rest) = buffer.split_at_mut(payload.len() + 4);
    let (head, body) = covered.split_at_mut(4);
    let [low, high] = word(payload.len() as u16);
    head.copy_from_slice(&[HEAD, second, low, high]);
    body.copy_from_slice(payload);
    rest[..2].copy_from_slice(&word(crc(start, covered)));
    Ok(length)
}

// A number as it stands on the wire, low byte first.
#[tactic(auto, unfolding(crate::specs::Frame::word))]
pub fn word(number: u16) -> [u8; 2]
    ensures { result ≡ word number }
{
    number.to_le_bytes()
}
