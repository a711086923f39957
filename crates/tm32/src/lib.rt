// The stand-in for the TM32G07x. Document 01 is what it does; `specs/` says it again as definitions that run.

#![tactic(auto)]

ghost use Rattle.std.specs.Prelude.{◌≡◌};
ghost use Rattle.tm32.specs.After.{refusal_number};

use std::error::Error;
use std::fmt;

mod device;
mod erase;
mod get;
mod go;
mod heart_beat;
mod mapped;
mod memory_crc;
mod pps;
mod read;
mod read_options;
mod replies;
mod sessions;
mod start_value;
mod write;
mod write_options;

// What the host is connected by; how long the memory is that is lent for a message, and the reply buffer at least.
pub use device::REPLY_ROOM;
pub use tm32_asks::{FLASH_LENGTH, Link, NVR_LENGTH, RAM_LENGTH};

// Where a session stands.
#[derive(Clone, Copy, Debug, PartialEq, Eq)]
pub enum State {
    // No handshake yet.
    Waiting,
    // The handshake was answered: frames are read.
    Talking,
    // The loader has jumped to the program at this address, and answers nothing.
    Gone { address: u32 },
}

// A session, a value that each message takes and gives back. The rate is the code of PPS, and not bits per second.
#[derive(Clone, Copy, Debug, PartialEq, Eq)]
pub struct Session {
    pub state: State,
    pub link: Link,
    pub rate: u8,
}

// What Get tells of the chip, and what its CRCs start from, in frames both ways and in Memory CRC. All of it is given at the start.
// Version and serial are sent as the bytes that they are here.
#[derive(Clone, Copy, Debug, PartialEq, Eq)]
pub struct Settings {
    pub version: [u8; 2],
    pub serial: [u8; 12],
    pub package: u8,
    pub model: u8,
    pub links: u32,
    pub start: u16,
}

// The memory that is lent for a message.
#[derive(Drop)]
pub struct LentMemory<'a> {
    pub flash: &'a mut [u8],
    pub ram: &'a mut [u8],
    pub nvr: &'a mut [u8],
}

// Why nothing was done, each with 01's number.
#[derive(Clone, Copy, Debug, PartialEq, Eq)]
pub enum Refusal {
    // The flash, the RAM or the NVR that is lent is not as long as the map says.
    FlashLength = 1,
    RamLength = 2,
    NvrLength = 3,
    // The lent buffer has too little room for a reply.
    NoRoom = 4,
    // The session's rate code names no rate.
    NoSuchRate = 5,
}

impl fmt::Display for Refusal {
    fn fmt<W: fmt::Write>(&self, f: &mut fmt::Formatter<W>) -> fmt::Result {
        f.write_str(match self {
            Refusal::FlashLength => "refused, the flash has a wrong length",
            Refusal::RamLength => "refused, the RAM has a wrong length",
            Refusal::NvrLength => "refused, the NVR has a wrong length",
            Refusal::NoRoom => "refused, no room for a reply",
            Refusal::NoSuchRate => "refused, no such rate code",
        })
    }
}

impl Error for Refusal {}

impl Refusal {
    // 01's number for it, 1 to 5. By name, and not by From: a caller says which number it means.
    pub fn number(self) -> u8
        ensures { result ≡ refusal_number self }
    {
        self as u8
    }
}

// What a message leaves behind: the session from then on, and the length of the reply that stands at the start of the lent buffer. A
// length, and no part of the buffer: 01 has the session handed back beside the length.
#[derive(Clone, Copy, Debug, PartialEq, Eq)]
pub struct Turn {
    pub session: Session,
    pub answer: Result<usize, Refusal>,
}
