// Records: a head of four bytes, how long the body is and its kind, and the body. No kind is known here.
ghost use Rattle.std.specs.Prelude.{◌≡◌};
ghost use Rattle.tape.specs.Records.{body_in, head_of, record_in};

use crate::{Found, Head};

// How long a head is.
pub const HEAD_LENGTH: usize = 4;

// What stands at the start of a tape.
#[tactic(auto, unfolding(crate::specs::Records::record_in))]
pub fn record_in(tape: &[u8]) -> Found
    ensures { result ≡ record_in tape.now }
{
    if tape.is_empty() {
        return Found::Nothing;
    }
    let Some(body) = tape.get(HEAD_LENGTH..) else {
        return Found::HeadCut;
    };
    let head = Head {
        length: frame::word_at(tape, 0),
        kind: frame::word_at(tape, 2),
    };
    if body.len() < usize::from(head.length) {
        Found::BodyCut(head)
    } else {
        Found::Whole(head)
    }
}

// So many bytes behind the head, lent on as a part of the tape: as many as there are, where there are fewer.
#[tactic(auto, unfolding(crate::specs::Records::body_in))]
pub fn body_of(tape: &[u8], length: u16) -> &[u8]
    ensures { result.now ≡ body_in tape.now length }
{
    let body = tape.get(HEAD_LENGTH..).unwrap_or_default();
    &body[..body.len().min(usize::from(length))]
}

impl Head {
    // The four bytes of the head.
    #[tactic(auto, unfolding(crate::specs::Records::head_of, frame::specs::Frame::word))]
    pub fn to_bytes(self) -> [u8; HEAD_LENGTH]
        ensures { result ≡ head_of self.length self.kind }
    {
        let size = frame::word(self.length);
        let name = frame::word(self.kind);
        [size[0], size[1], name[0], name[1]]
    }
}
