// Heart beat: the device is there. Nothing else comes of it.
ghost use Rattle.std.specs.Prelude.{◌≡◌};

use crate::Session;

pub(crate) fn work(session: Session) -> Session
    ensures { result ≡ session }
{
    session
}
