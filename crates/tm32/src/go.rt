// Go jumps: the session is Gone, with the address.
ghost use Rattle.std.specs.Prelude.{◌≡◌};
ghost use Rattle.tm32.specs.Device.{in_state};

use crate::{Session, State};

pub(crate) fn work(session: Session, address: u32) -> Session
    ensures { result ≡ in_state session (State.Gone address) }
{
    session.in_state(State::Gone { address })
}
