// PPS sets the rate code.
ghost use Rattle.std.specs.Prelude.{◌≡◌};
ghost use Rattle.tm32.specs.Device.{at_rate};

use crate::Session;

pub(crate) fn work(session: Session, code: u8) -> Session
    ensures { result ≡ at_rate session code }
{
    session.at_rate(code)
}
