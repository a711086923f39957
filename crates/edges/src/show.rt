// How bytes and a session are printed.
use std::fmt;
use tm32::{Link, Session, State};

// More of one value than these are printed as a run.
const LONGEST_SPELT: usize = 16;

// Bytes as 01 prints them, and more than sixteen of one value as `FF*1024`.
#[derive(Clone, Copy)]
pub(crate) struct Runs<'a>(pub &'a [u8]);

impl fmt::Display for Runs<'_> {
    fn fmt<W: fmt::Write>(&self, f: &mut fmt::Formatter<W>) -> fmt::Result {
        let mut runs = self.0.chunk_by(|a, b| a == b);
        let Some(first) = runs.next() else {
            return f.write_str("none");
        };
        write!(f, "{}", Run(first))?;
        for run in runs {
            write!(f, " {}", Run(run))?;
        }
        Ok(())
    }
}

// Bytes of one value. The frames' cases print bytes by themselves: what the two programs could share are these six lines.
#[derive(Clone, Copy)]
struct Run<'a>(&'a [u8]);

impl fmt::Display for Run<'_> {
    fn fmt<W: fmt::Write>(&self, f: &mut fmt::Formatter<W>) -> fmt::Result {
        match self.0 {
            [] => Ok(()),
            [byte, ..] if LONGEST_SPELT < self.0.len() => {
                let count = self.0.len();
                write!(f, "{}*{count}", Digits(*byte))
            }
            [first, rest @ ..] => {
                write!(f, "{}", Digits(*first))?;
                for byte in rest {
                    write!(f, " {}", Digits(*byte))?;
                }
                Ok(())
            }
        }
    }
}

// A byte as two digits, in one piece: as {:02X} a leading nought is a piece of its own, and a write more.
#[derive(Clone, Copy)]
struct Digits(u8);

impl fmt::Display for Digits {
    fn fmt<W: fmt::Write>(&self, f: &mut fmt::Formatter<W>) -> fmt::Result {
        let digits = text::hex_of(self.0);
        f.write_str(str::from_utf8(&digits).unwrap_or_default())
    }
}

// A session in words.
#[derive(Clone, Copy)]
pub(crate) struct SessionLine(pub Session);

impl fmt::Display for SessionLine {
    fn fmt<W: fmt::Write>(&self, f: &mut fmt::Formatter<W>) -> fmt::Result {
        let session = self.0;
        match session.state {
            State::Waiting => write!(f, "Waiting")?,
            State::Talking => write!(f, "Talking")?,
            State::Gone { address } => write!(f, "Gone to {address:08X}")?,
        }
        let link = link_words(session.link);
        let rate = session.rate;
        let speed = session.bits_per_second();
        write!(f, " on {link}, code {rate:02X}, {speed} bits per second")
    }
}

// Where a link is printed these words are wanted, and nowhere else: so no Display of the crate below.
fn link_words(link: Link) -> &'static str {
    match link {
        Link::Uart => "UART",
        Link::Spi => "SPI",
        Link::I2c => "I2C",
    }
}
