// The records of a tape, a line each.
use crate::errors::Failure;
use crate::words;
use frame::Sound;
use itoa::Buffer;
use std::io::Write;
use std::{fmt, io};
use stream::{Consumer, FillError, SheetWriter};
use tape::{ERROR, Found, HEAD_LENGTH, MESSAGE, REPLY, TapeError};
use tm32_asks::{Complaint, number_of};

// How many bytes are spelt at a time.
const FEW: usize = 16;

// Makes text of a tape, on a sheet. The CRCs of its frames start from a value.
#[derive(Drop)]
pub(crate) struct Describer<'a, P> {
    start: u16,
    sheet: SheetWriter<'a, P>,
}

impl<'a, P: Print> Describer<'a, P> {
    pub(crate) fn new(start: u16, sheet: SheetWriter<'a, P>) -> Self {
        Describer { start, sheet }
    }

    // A record: its bytes, and what they say. By a number, since any may stand for a kind.
    fn record(&mut self, kind: u16, body: &[u8]) -> io::Result<()> {
        match kind {
            MESSAGE => {
                self.hex(b"> ", body)?;
                writeln!(self.sheet, "{}", message(self.start, body))
            }
            REPLY => {
                self.hex(b"< ", body)?;
                writeln!(self.sheet, "{}", Reply::read(self.start, body))
            }
            ERROR => writeln!(self.sheet, "! {}", Wrong(body)),
            _ => self.other(kind, body.len()),
        }
    }

    // A record that is none of these. As a format it takes more than twice as long, and a tape may hold nothing else.
    fn other(&mut self, kind: u16, length: usize) -> io::Result<()> {
        let [high, low] = kind.to_be_bytes();
        let [first, second] = text::hex_of(high);
        let [third, fourth] = text::hex_of(low);
        self.sheet.bytes(b"? kind 0x")?;
        self.sheet
            .bytes(&[first, second, third, fourth, b',', b' '])?;
        self.sheet.bytes(Buffer::new().format(length).as_bytes())?;
        self.sheet.bytes(b" bytes\n")
    }

    // Bytes as two digits each, with a space behind, a few at a time. They go on the sheet as they are: as a format, {:02X}, a tape takes five
    // times as long.
    fn hex(&mut self, mark: &[u8], bytes: &[u8]) -> io::Result<()> {
        self.sheet.bytes(mark)?;
        let mut room = [b' '; 3 * FEW];
        for few in bytes.chunks(FEW) {
            self.sheet.bytes(spelt(few, &mut room))?;
        }
        Ok(())
    }
}

// The first few of some bytes, laid over a room of spaces.
fn spelt<'r>(bytes: &[u8], room: &'r mut [u8; 3 * FEW]) -> &'r [u8] {
    let count = bytes.len().min(FEW);
    for (place, byte) in bytes[..count].iter().enumerate() {
        let [high, low] = text::hex_of(*byte);
        room[3 * place] = high;
        room[3 * place + 1] = low;
    }
    &room[..3 * count]
}

impl<P: Print> Consumer for Describer<'_, P> {
    type Error = Failure;

    // The records that stand whole on the tape.
    fn consume(&mut self, tape: &[u8]) -> Result<usize, Failure> {
        let mut used = 0;
        // A while: how far the next record goes only its head says.
        while used < tape.len() {
            let rest = &tape[used..];
            let Found::Whole(head) = tape::record_in(rest) else {
                break;
            };
            self.record(head.kind, tape::body_of(rest, head.length))?;
            used += HEAD_LENGTH + usize::from(head.length);
        }
        self.sheet.written()?;
        Ok(used)
    }

    // What is left where the tape ends.
    fn finish(&mut self, rest: &[u8]) -> Result<(), Failure> {
        if !rest.is_empty() {
            // It is the last that is said: where it cannot be written nothing is said in its place.
            let words = b"? this tape is cut short: its last record is not whole\n";
            let _ = self.sheet.bytes(words);
            let _ = self.sheet.written();
        }
        Ok(())
    }

    fn refuse(&mut self, error: FillError) -> Failure {
        match error {
            FillError::Full => Failure::LongRecord,
            FillError::Failed => Failure::Unreadable,
        }
    }
}

// What a message asks for. The bytes of the handshake are as 01 prints them: what is told does not go by the device.
fn message(start: u16, body: &[u8]) -> &'static str {
    match body {
        [0x7F] => "handshake",
        _ => match frame::read(start, body) {
            Ok(Sound { second, .. }) => words::command(second),
            Err(_) => "no sound frame",
        },
    }
}

// What a reply says.
#[derive(Clone, Copy)]
enum Reply {
    Empty,
    Handshake,
    Result(u8),
    Spoiled,
}

impl Reply {
    fn read(start: u16, body: &[u8]) -> Self {
        match body {
            [] => Reply::Empty,
            [0x79] => Reply::Handshake,
            _ => match frame::read(start, body) {
                Ok(Sound { second, .. }) => Reply::Result(second),
                Err(_) => Reply::Spoiled,
            },
        }
    }
}

impl fmt::Display for Reply {
    fn fmt<W: fmt::Write>(&self, f: &mut fmt::Formatter<W>) -> fmt::Result {
        match *self {
            Reply::Empty => f.write_str("no reply"),
            Reply::Handshake => f.write_str("handshake answered"),
            Reply::Result(number) => {
                let words = Outcome(number);
                write!(f, "0x{number:02X}: {words}")
            }
            Reply::Spoiled => f.write_str("no sound frame"),
        }
    }
}

// What a result means. A tape may come from anywhere, with numbers that this chip does not give.
#[derive(Clone, Copy)]
struct Outcome(u8);

impl fmt::Display for Outcome {
    fn fmt<W: fmt::Write>(&self, f: &mut fmt::Formatter<W>) -> fmt::Result {
        match Complaint::try_from(self.0) {
            Ok(complaint) => write!(f, "{complaint}"),
            Err(_) if self.0 == number_of(Ok(())) => f.write_str("work done"),
            Err(_) => f.write_str("a result that this chip does not give"),
        }
    }
}

// The player's word that the tape is wrong: the body of its record.
#[derive(Clone, Copy)]
struct Wrong<'b>(&'b [u8]);

impl fmt::Display for Wrong<'_> {
    fn fmt<W: fmt::Write>(&self, f: &mut fmt::Formatter<W>) -> fmt::Result {
        let [number] = self.0 else {
            return f.write_str("an error without a number");
        };
        match TapeError::try_from(*number) {
            Ok(error) => write!(f, "{error}"),
            Err(_) => f.write_str("an error of a number that no tape gives"),
        }
    }
}
