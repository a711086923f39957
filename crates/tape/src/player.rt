// The player: a stretch of tape, played on a device, with its reply records written into a lent buffer.
ghost use Rattle.std.specs.Prelude.{◌≡◌, ◌+◌, ◌≤◌, ◌<◌, ◌^◌, ◌∷◌, [], length};
ghost use Rattle.frame.specs.Frame.{laid};
ghost use Rattle.tm32.specs.Device.{device_of};
ghost use Rattle.tm32.specs.Promises.{SameSlices, held};
ghost use Rattle.tape.specs.Play.{error_kind, left_by, played, record_room};
ghost use Rattle.tape.specs.Promises.{Closes, Stands, Stepped, off_at};
ghost use Rattle.tape.specs.Records.{head_length, head_of, record_of};
ghost use Rattle.tape.specs.Stops.{error_number};

use crate::records::{HEAD_LENGTH, body_of};
use crate::script::next_in;
use crate::{Head, Played, Stop, TapeError};
use tm32::{LentMemory, REPLY_ROOM, Session, Settings};

// The kinds of a reply and of an error: numbers, as that of a message is.
pub const REPLY: u16 = 2;

pub const ERROR: u16 = 0x00FF;

// The room that the record of a reply may need.
const RECORD_ROOM: usize = HEAD_LENGTH + REPLY_ROOM;

// How long an error's record is.
const ERROR_LENGTH: usize = HEAD_LENGTH + 1;

// What the player goes by: the settings, and a stretch of tape with whether the input ends where it does.
#[derive(Clone, Copy)]
struct Player<'a> {
    settings: Settings,
    tape: &'a [u8],
    ends: bool,
}

// Where the player stands: the session, and how many bytes of the tape are used and of the buffer written. Counts beside lent slices:
// nothing is allocated, and the definitions count.
#[derive(Clone, Copy)]
struct Place {
    session: Session,
    used: usize,
    written: usize,
}

// Plays as many whole records as a stretch of tape holds. `ends` says that the input ends where the stretch does. The reply
// records stand at the start of the buffer, whose other bytes are as they came.
pub fn play(
    session: Session,
    settings: Settings,
    tape: &[u8],
    ends: bool,
    memory: &mut LentMemory,
    buffer: &mut [u8],
) -> Played
    ensures same_slices { SameSlices memory.old memory.new }
    ensures outcome { left_by result (held memory.new) buffer.new
        ≡ played settings (device_of session (held memory.old)) ends tape.now buffer.old }
{
    let player = Player {
        settings,
        tape,
        ends,
    };
    let mut place = Place {
        session,
        used: 0,
        written: 0,
    };
    loop {
        match player.step(place, memory, buffer) {
            Ok(next) => place = next,
            Err(stop) => return place.close(stop, buffer),
        }
    }
}

impl Player<'_> {
    // One message more from a place on, or why there is none.
    fn step(&self, place: Place, memory: &mut LentMemory, buffer: &mut [u8]) -> Result<Place, Stop>
        requires { Stands place self.now.tape.now buffer.old }
        ensures same_slices { SameSlices memory.old memory.new }
        ensures outcome { Stepped self.now.settings self.now.ends self.now.tape.now place
            (held memory.old) buffer.old result (held memory.new) buffer.new }
    {
        let rest = &self.tape[place.used..];
        let length = next_in(rest, self.ends)?;
        if buffer.len() - place.written < RECORD_ROOM {
            return Err(Stop::Room);
        }
        let part = &mut buffer[place.written..];
        let message = body_of(rest, length);
        let room = &mut part[HEAD_LENGTH..RECORD_ROOM];
        let turn = place.session.answer(self.settings, message, memory, room);
        let reply = turn.answer?;
        let head = Head {
            length: reply as u16,
            kind: REPLY,
        };
        put_head(head, part);
        Ok(Place {
            session: turn.session,
            used: place.used + HEAD_LENGTH + message.len(),
            written: place.written + HEAD_LENGTH + reply,
        })
    }
}

impl Place {
    // The player stops here. What is wrong with the tape is told in a record of its own.
    fn close(self, stop: Stop, buffer: &mut [u8]) -> Played
        requires { self.written ≤ length buffer.old }
        ensures { Closes self stop buffer.old result buffer.new }
    {
        let Stop::Error(error) = stop else {
            return self.off(stop);
        };
        if buffer.len() - self.written < RECORD_ROOM {
            return self.off(Stop::Room);
        }
        put_error(error, &mut buffer[self.written..]);
        Played {
            written: self.written + ERROR_LENGTH,
            ..self.off(stop)
        }
    }

    // A stop at this place.
    fn off(self, stop: Stop) -> Played
        ensures { result ≡ off_at self stop }
    {
        Played {
            session: self.session,
            used: self.used,
            written: self.written,
            stop,
        }
    }
}

// A head, laid over the start of a part of the buffer.
#[tactic(auto, unfolding(frame::specs::Frame::laid, frame::specs::Frame::word, crate::specs::Records::head_of))]
fn put_head(head: Head, part: &mut [u8])
    requires { head_length ≤ length part.old }
    ensures { part.new ≡ laid (head_of head.length head.kind) part.old }
{
    part[..HEAD_LENGTH].copy_from_slice(&head.to_bytes());
}

// The record that tells what is wrong with a tape.
#[tactic(auto, unfolding(frame::specs::Frame::laid, frame::specs::Frame::word, crate::specs::Records::head_of, crate::specs::Records::record_of))]
fn put_error(error: TapeError, part: &mut [u8])
    requires { record_room ≤ length part.old }
    ensures { part.new ≡ laid (record_of error_kind (error_number error ∷ [])) part.old }
{
    let head = Head {
        length: 1,
        kind: ERROR,
    };
    put_head(head, part);
    part[HEAD_LENGTH] = error.number();
}
