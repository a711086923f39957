// Six ways to spoil a frame that carries no data.
ghost use Rattle.std.specs.Prelude.{◌≤◌, length};

use crate::tally::Tally;
use crate::wire::START;
use std::fmt;

// A way to spoil it, which is tried with many numbers.
#[derive(Clone, Copy, Debug, PartialEq, Eq)]
pub(crate) enum Way {
    // The byte at this place is another.
    Byte(usize),
    // The last byte is missing.
    Cut,
    // There is a byte more at the end.
    Appended,
    // The head is another, and the CRC is worked out anew.
    Head,
    // The data length is another, and the CRC is worked out anew.
    Length,
    // There is a byte more than the data length says, and the CRC is worked out anew.
    Longer,
}

impl Way {
    // The message, laid over the start of the room that is lent for it.
    fn message(self, frame: [u8; 6], number: u16, room: &mut [u8; 7]) -> &[u8]
        ensures { 2 ≤ length result.now }
    {
        let [low, high] = frame::word(number);
        let [head, second, size_low, size_high, crc_low, crc_high] = frame;
        *room = [head, second, size_low, size_high, crc_low, crc_high, low];
        match self {
            Way::Byte(place) => {
                if let Some(byte) = room.get_mut(place) {
                    *byte ^= low;
                }
                &room[..6]
            }
            Way::Cut => &room[..5],
            Way::Appended => room,
            Way::Head => {
                room[0] ^= low;
                summed(room, 4)
            }
            Way::Length => {
                room[2] = low;
                room[3] = high;
                summed(room, 4)
            }
            Way::Longer => {
                room[4] = low;
                summed(room, 5)
            }
        }
    }
}

impl fmt::Display for Way {
    fn fmt<W: fmt::Write>(&self, f: &mut fmt::Formatter<W>) -> fmt::Result {
        match self {
            Way::Byte(place) => write!(f, "byte {place} changed"),
            Way::Cut => f.write_str("cut short by one"),
            Way::Appended => f.write_str("one byte appended"),
            Way::Head => f.write_str("another head, CRC anew"),
            Way::Length => f.write_str("another data length, CRC anew"),
            Way::Longer => f.write_str("one byte longer, CRC anew"),
        }
    }
}

// What reading says of the frame spoiled in one way, with each number from 1 to `most`.
pub(crate) fn tried(frame: [u8; 6], way: Way, most: u16) -> Tally {
    let mut tally = Tally::default();
    let mut room = [0; 7];
    for number in 1..=most {
        let message = way.message(frame, number, &mut room);
        tally.add(frame::read(START, message), message.len() - 2);
    }
    tally
}

// The CRC worked out anew over all before a place, and put there: the message ends with it.
fn summed(room: &mut [u8; 7], place: usize) -> &[u8]
    requires { place ≤ 5 }
    ensures { 2 ≤ length result.now }
{
    let sum = frame::crc(START, &room[..place]);
    room[place..place + 2].copy_from_slice(&frame::word(sum));
    &room[..place + 2]
}
