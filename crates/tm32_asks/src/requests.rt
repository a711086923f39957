// What a Talking device reads in a message: the frame's command as one of the ten requests, and the fields in its data.
ghost use Rattle.std.specs.Prelude.{◌≡◌, ◌≤◌, ◌<◌, drop, get_or, length};
ghost use Rattle.frame.specs.Frame.{longest, word_at};
ghost use Rattle.tm32_asks.specs.Numbers.{long_at};
ghost use Rattle.tm32_asks.specs.Request.{exactly as exactly_is, request_in, request_of, write_in};

use crate::Request;
use crate::map::OPTIONS_LENGTH;

// How much of a write's data is not bytes to write: the readback flag and the address.
const WRITE_HEAD: usize = 5;

// What a message asks for, where a CRC starts from a value. A message that is no sound frame asks for nothing.
#[tactic(auto, unfolding(crate::specs::Request::request_in, crate::specs::Request::reading_result))]
pub fn request_in(start: u16, message: &[u8]) -> Request
    ensures { result ≡ request_in start message.now }
{
    match frame::read(start, message) {
        Ok(sound) => request_of(sound.second, frame::data_of(message)),
        Err(_) => Request::Misshapen,
    }
}

// The ten commands, and the data that each takes. A frame's second byte is the command. Document 01 names the form: one arm for each
// command over a local, and the unknown codes as ranges.
#[tactic(auto, unfolding(crate::specs::Request::request_of))]
fn request_of(second: u8, payload: &[u8]) -> Request
    requires { length payload.now ≤ longest }
    ensures { result ≡ request_of second payload.now }
{
    let command = second;
    match command {
        0x00 => pps_in(payload),
        0x01 => exactly(0, payload, Request::Get),
        0x02..=0x10 => Request::Misshapen,
        0x11 => read_in(payload),
        0x12 => write_in(payload),
        0x13 => memory_crc_in(payload),
        0x14 => erase_in(payload),
        0x15..=0x20 => Request::Misshapen,
        0x21 => go_in(payload),
        0x22..=0x30 => Request::Misshapen,
        0x31 => exactly(OPTIONS_LENGTH, payload, Request::WriteOptions),
        0x32 => exactly(0, payload, Request::ReadOptions),
        0x33..=0x40 => Request::Misshapen,
        0x41 => exactly(0, payload, Request::HeartBeat),
        0x42..=0xFF => Request::Misshapen,
    }
}

// The requests with fields: each field where it stands in the data.
fn pps_in(payload: &[u8]) -> Request
    ensures { result ≡ exactly_is 1 payload.now
        (Request.Pps (get_or payload.now 0 0)) }
{
    let code = byte_at(payload, 0);
    exactly(1, payload, Request::Pps { code })
}

fn read_in(payload: &[u8]) -> Request
    ensures { result ≡ exactly_is 6 payload.now
        (Request.Read (long_at payload.now 0) (word_at payload.now 4)) }
{
    let address = long_at(payload, 0);
    let count = u32::from(frame::word_at(payload, 4));
    exactly(6, payload, Request::Read { address, count })
}

fn memory_crc_in(payload: &[u8]) -> Request
    ensures { result ≡ exactly_is 10 payload.now
        (Request.MemoryCrc (long_at payload.now 0) (long_at payload.now 4) (word_at payload.now 8)) }
{
    let address = long_at(payload, 0);
    let count = long_at(payload, 4);
    let crc = frame::word_at(payload, 8);
    exactly(
        10,
        payload,
        Request::MemoryCrc {
            address,
            count,
            crc,
        },
    )
}

fn erase_in(payload: &[u8]) -> Request
    ensures { result ≡ exactly_is 4 payload.now
        (Request.Erase (word_at payload.now 0) (word_at payload.now 2)) }
{
    let first = u32::from(frame::word_at(payload, 0));
    let count = u32::from(frame::word_at(payload, 2));
    exactly(4, payload, Request::Erase { first, count })
}

fn go_in(payload: &[u8]) -> Request
    ensures { result ≡ exactly_is 4 payload.now
        (Request.Go (long_at payload.now 0)) }
{
    let address = long_at(payload, 0);
    exactly(4, payload, Request::Go { address })
}

// A request whose data must be just so long.
#[tactic(auto, unfolding(crate::specs::Request::exactly))]
fn exactly(count: usize, payload: &[u8], request: Request) -> Request
    ensures { result ≡ exactly_is count payload.now request }
{
    if payload.len() == count {
        request
    } else {
        Request::Misshapen
    }
}

// Write: all data behind the flag and the address are bytes to write.
#[tactic(auto, unfolding(crate::specs::Request::write_in))]
fn write_in(payload: &[u8]) -> Request
    requires { length payload.now ≤ longest }
    ensures { result ≡ write_in payload.now }
{
    let flag = byte_at(payload, 0);
    if payload.len() < WRITE_HEAD || 1 < flag {
        return Request::Misshapen;
    }
    Request::Write {
        flag,
        address: long_at(payload, 1),
        count: bytes_to_write(payload).len() as u32,
    }
}

// The bytes to write, in the data of a write. Data that is too short for its flag and address has none.
pub fn bytes_to_write(payload: &[u8]) -> &[u8]
    ensures { result.now ≡ drop 5 payload.now }
{
    payload.get(WRITE_HEAD..).unwrap_or(&[])
}

// The number in the four bytes from a place on. By two words, and not by `u32::from_le_bytes`: past the end they count as nought.
#[tactic(auto, unfolding(crate::specs::Numbers::long_at))]
fn long_at(bytes: &[u8], place: usize) -> u32
    requires { place < 8 }
    ensures { result ≡ long_at bytes.now place }
{
    let low = frame::word_at(bytes, place);
    let high = frame::word_at(bytes, place + 2);
    u32::from(low) + 0x10000 * u32::from(high)
}

// The byte at a place, and 0 where there is none.
pub(crate) fn byte_at(bytes: &[u8], place: usize) -> u8
    ensures { result ≡ get_or bytes.now place 0 }
{
    bytes.get(place).copied().unwrap_or(0)
}
