// What a tape holds for the player: the next message, or why there is none.
ghost use Rattle.std.specs.Prelude.{◌≡◌, ℕ, Err};
ghost use Rattle.tape.specs.Promises.{let_through, next_told};
ghost use Rattle.tape.specs.Script.{Next, cut as cut_is, judged as judged_is, next_in};
ghost use Rattle.tape.specs.Stops.{stop_of};

use crate::records::record_in;
use crate::{Found, Head, Stop, TapeError};

// The kind of a message, and the most that its body may have. A number, as the other kinds are: a tape may hold any of 16 bits, and
// what it holds is told as it stands. A kind is a number, and no enum: a record may have any.
pub const MESSAGE: u16 = 1;

const MOST_BODY: u16 = 2048;

// How long the body of a tape's next message is, or why there is none.
#[tactic(auto, unfolding(crate::specs::Script::next_of))]
pub(crate) fn next_in(tape: &[u8], ends: bool) -> Result<u16, Stop>
    ensures { next_told result ≡ next_in ends tape.now }
{
    match record_in(tape) {
        Found::Nothing => Err(cut(ends, Stop::End)),
        Found::HeadCut => Err(cut(ends, Stop::Error(TapeError::CutShort))),
        Found::BodyCut(head) => {
            head.judged()?;
            Err(cut(ends, Stop::Error(TapeError::CutShort)))
        }
        Found::Whole(head) => {
            head.judged()?;
            Ok(head.length)
        }
    }
}

// Where the tape stops short of a record: what it comes to if the input ends there, and a wish for more if it does not.
fn cut(ends: bool, stop: Stop) -> Stop
    ensures { Err (stop_of result) ≡ cut_is ends (stop_of stop) }
{
    if ends { stop } else { Stop::MoreTape }
}

impl Head {
    // A whole head, judged for its length and then for its kind.
    fn judged(self) -> Result<(), TapeError>
        ensures { (next : Next) → let_through result next ≡ judged_is self.length self.kind next }
    {
        if MOST_BODY < self.length {
            return Err(TapeError::TooLong);
        }
        if self.kind != MESSAGE {
            return Err(TapeError::UnknownKind);
        }
        Ok(())
    }
}
