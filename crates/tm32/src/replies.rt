// Replies, laid over the start of the buffer that is lent for them. Each is a frame whose CRC starts from a value.
ghost use Rattle.std.specs.Prelude.{◌≤◌, length};
ghost use Rattle.frame.specs.Frame.{frame};
ghost use Rattle.tm32.specs.After.{reply_room};
ghost use Rattle.tm32_asks.specs.Checks.{most_bytes};
ghost use Rattle.tm32_asks.specs.Results.{number_of};
ghost use Rattle.tm32.specs.Promises.{Laid};

use crate::{Session, Turn};
use tm32_asks::{Complaint, number_of};

// A reply, whose buffer has room for any data. Its five parameters are as in `respond`: apart, so that no promise has to say what stays.
#[tactic(auto, using(frame::proofs::Laws::written, frame::proofs::Laws::length_frame))]
pub(crate) fn reply(
    start: u16,
    session: Session,
    outcome: Result<(), Complaint>,
    payload: &[u8],
    buffer: &mut [u8],
) -> Turn
    requires short { length payload.now ≤ most_bytes }
    requires room { reply_room ≤ length buffer.old }
    ensures { Laid result buffer.new session (frame start (number_of outcome) payload.now) buffer.old }
{
    let length = frame::write(start, number_of(outcome), payload, buffer).unwrap();
    Turn {
        session,
        answer: Ok(length),
    }
}
