// What a reply can say, and the number by which it says it: the byte in the command's place.
ghost use Rattle.std.specs.Prelude.{◌≡◌};
ghost use Rattle.tm32_asks.specs.Results.{Tells, number_of};

use std::error::Error;
use std::fmt;

// Work done: the number of a reply that complains of nothing, and so no case of the enum.
const WORK_DONE: u8 = 0x90;

// What else a reply can say, each with 01's number.
#[derive(Clone, Copy, Debug, PartialEq, Eq)]
pub enum Complaint {
    // No handshake came before.
    NoHandshake = 0x80,
    // Not a message that the device can read.
    WrongShape = 0x91,
    // A rate was to be set on a link that has none.
    WrongLink = 0xF5,
    // No such rate.
    WrongRate = 0xF0,
    // Nought bytes, or too many.
    WrongLength = 0xF2,
    // Nought pages, or more than there are.
    WrongPageCount = 0xF3,
    // Not in a region that the command may use.
    WrongAddress = 0xF1,
    // The chip is under read protection (RDP).
    ReadProtected = 0x62,
    // A touched page is under PCROP.
    PcropProtected = 0x63,
    // A touched page is under write protection (WRP).
    WriteProtected = 0x61,
    // The CRC of the memory is not the one that was sent.
    WrongCrc = 0xF4,
    // What was written does not read back as it was sent. The work is done all the same.
    ReadbackDiffers = 0x92,
}

// The number by which a reply says it. By name, and not by From, which cannot be written here for a Result of std.
pub fn number_of(outcome: Result<(), Complaint>) -> u8
    ensures { result ≡ number_of outcome }
{
    match outcome {
        Ok(()) => WORK_DONE,
        Err(complaint) => complaint as u8,
    }
}

// A number by which nothing is complained of.
#[derive(Clone, Copy, Debug, PartialEq, Eq)]
pub struct NoComplaint(pub u8);

impl TryFrom<u8> for Complaint {
    type Error = NoComplaint;

    ghost try_from_gives = { Tells };

    fn try_from(number: u8) -> Result<Self, NoComplaint> {
        match number {
            0x61 => Ok(Complaint::WriteProtected),
            0x62 => Ok(Complaint::ReadProtected),
            0x63 => Ok(Complaint::PcropProtected),
            0x80 => Ok(Complaint::NoHandshake),
            0x91 => Ok(Complaint::WrongShape),
            0x92 => Ok(Complaint::ReadbackDiffers),
            0xF0 => Ok(Complaint::WrongRate),
            0xF1 => Ok(Complaint::WrongAddress),
            0xF2 => Ok(Complaint::WrongLength),
            0xF3 => Ok(Complaint::WrongPageCount),
            0xF4 => Ok(Complaint::WrongCrc),
            0xF5 => Ok(Complaint::WrongLink),
            _ => Err(NoComplaint(number)),
        }
    }
}

impl fmt::Display for Complaint {
    fn fmt<W: fmt::Write>(&self, f: &mut fmt::Formatter<W>) -> fmt::Result {
        f.write_str(match self {
            Complaint::NoHandshake => "no handshake yet",
            Complaint::WrongShape => "the message is misshapen",
            Complaint::WrongLink => "not possible on this link",
            Complaint::WrongRate => "a rate code that does not exist",
            Complaint::WrongLength => "the length is not allowed",
            Complaint::WrongPageCount => "the page count is not allowed",
            Complaint::WrongAddress => "the range is none that this command may use",
            Complaint::ReadProtected => "read protection is on",
            Complaint::PcropProtected => "a touched page is under PCROP",
            Complaint::WriteProtected => "a touched page is write protected",
            Complaint::WrongCrc => "the CRC that was sent is not that of the memory",
            Complaint::ReadbackDiffers => "written, but a byte differs from what was sent",
        })
    }
}

impl Error for Complaint {}

impl fmt::Display for NoComplaint {
    fn fmt<W: fmt::Write>(&self, f: &mut fmt::Formatter<W>) -> fmt::Result {
        write!(f, "no complaint has the number 0x{:02X}", self.0)
    }
}

impl Error for NoComplaint {}
