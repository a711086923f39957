// Reading a frame.
ghost use Rattle.std.specs.Prelude.{◌≡◌};
ghost use Rattle.frame.specs.Frame.{reading, data_of, word_at};

use crate::crc16::crc;
use crate::{HEAD, Sound, Spoiled};

// Reads a message as a frame, in one pass over it.
#[tactic(auto, unfolding(crate::specs::Frame::reading))]
pub fn read(start: u16, bytes: &[u8]) -> Result<Sound, Spoiled>
    ensures { result ≡ reading start bytes.now }
{
    let [HEAD, second, _, _, payload @ .., _, _] = bytes else {
        return Err(Spoiled { place: 0 });
    };
    if payload.len() != usize::from(word_at(bytes, 2)) {
        return Err(Spoiled { place: 2 });
    }
    let place = bytes.len() - 2;
    if word_at(bytes, place) != crc(start, &bytes[..place]) {
        return Err(Spoiled { place });
    }
    Ok(Sound {
        second: *second,
        length: payload.len(),
    })
}

// The data of a frame, lent on as a part of the caller's slice. Fewer than six bytes hold none.
#[tactic(auto, unfolding(crate::specs::Frame::data_of))]
pub fn data_of(frame: &[u8]) -> &[u8]
    ensures { result.now ≡ data_of frame.now }
{
    match frame {
        [_, _, _, _, payload @ .., _, _] => payload,
        _ => &[],
    }
}

// The number in the two bytes from a place on. What is past the end counts as nought.
#[tactic(auto, unfolding(crate::specs::Frame::word_at))]
pub fn word_at(bytes: &[u8], place: usize) -> u16
    ensures { result ≡ word_at bytes.now place }
{
    match bytes.get(place..) {
        Some([low, high, ..]) => u16::from_le_bytes([*low, *high]),
        Some([low]) => u16::from(*low),
        _ => 0,
    }
}
