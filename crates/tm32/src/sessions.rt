// The session: how it starts, and its rate.
ghost use Rattle.std.specs.Prelude.{◌≡◌};
ghost use Rattle.tm32.specs.Device.{at_rate, in_state, restart as restart_is, start as start_is};
ghost use Rattle.tm32_asks.specs.Rates.{bits_per_second};

use crate::{Session, State};
use tm32_asks::Link;

// The rate code of a start.
const START_RATE: u8 = 0x0A;

// The rates of PPS in bits per second, in order of code. The first code is 0x01.
const RATES: [u32; 16] = [
    2400, 4800, 9600, 14400, 19200, 38400, 43000, 57600, 76800, 115200, 128000, 230400, 256000,
    460800, 921600, 1382400,
];

impl Session {
    // A session that starts on a link.
    pub fn start(link: Link) -> Session
        ensures { result ≡ start_is link }
    {
        Session {
            state: State::Waiting,
            link,
            rate: START_RATE,
        }
    }

    // What becomes of a session that is restarted on a link.
    pub fn restart(self, link: Link) -> Session
        ensures { result ≡ restart_is self link }
    {
        Session::start(link)
    }

    // The session's rate in bits per second, and 0 where its code names none. Document 01 names this form: a constant table, and a
    // code that is tested before it is an index.
    #[tactic(auto, unfolding(tm32_asks::specs::Rates::bits_per_second, tm32_asks::specs::Rates::rates, tm32_asks::specs::Numbers::from_one_to))]
    pub fn bits_per_second(self) -> u32
        ensures { result ≡ bits_per_second self.rate }
    {
        match self.rate {
            0x01..=0x10 => RATES[self.rate as usize - 1],
            _ => 0,
        }
    }

    // The session at another rate, and in another state.
    pub(crate) fn at_rate(self, rate: u8) -> Session
        ensures { result ≡ at_rate self rate }
    {
        Session { rate, ..self }
    }

    pub(crate) fn in_state(self, state: State) -> Session
        ensures { result ≡ in_state self state }
    {
        Session { state, ..self }
    }
}
