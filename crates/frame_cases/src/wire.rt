// Frames on the wire: 01, "A message and its reply".
use crate::show::{Bytes, Reading, Writing};
use crate::spoiled::{Way, tried};
use std::io;

// What the CRC of the frames that 01 prints starts from.
pub(crate) const START: u16 = 0;

// The check values over the nine characters.
pub(crate) fn sums(rt: &impl Print) -> io::Result<()> {
    let nine = b"123456789";
    let from_nought = frame::crc(START, nine);
    let from_ones = frame::crc(0xFFFF, nine);
    println!(rt; "CRC over 123456789 from 0000: {from_nought:04X}, from FFFF: {from_ones:04X}")
}

// A frame that 01 prints: how it reads, what the writer writes for it, and how it reads once it is spoiled.
pub(crate) fn printed(rt: &impl Print, frame: [u8; 6]) -> io::Result<()> {
    read(rt, START, &frame)?;
    write(rt, START, frame[1], b"", &mut [0xEE; 8])?;
    for place in 0..6 {
        told(rt, frame, Way::Byte(place), 255)?;
    }
    told(rt, frame, Way::Cut, 1)?;
    told(rt, frame, Way::Appended, 256)?;
    told(rt, frame, Way::Head, 255)?;
    told(rt, frame, Way::Length, 65535)?;
    told(rt, frame, Way::Longer, 256)
}

// How the frame reads, spoiled in one way.
fn told(rt: &impl Print, frame: [u8; 6], way: Way, most: u16) -> io::Result<()> {
    let tally = tried(frame, way, most);
    println!(rt; "  {way}{tally}")
}

// From another start value the same bytes are spoiled, and another frame is written.
pub(crate) fn other_start(rt: &impl Print) -> io::Result<()> {
    println!(rt; "From start FFFF")?;
    read(rt, 0xFFFF, &[0x2D, 0x41, 0x00, 0x00, 0x55, 0x24])?;
    write(rt, 0xFFFF, 0x41, b"", &mut [0xEE; 6])
}

// A frame that carries data.
pub(crate) fn with_data(rt: &impl Print) -> io::Result<()> {
    println!(rt; "With data")?;
    write(rt, START, 0x12, b"123456789", &mut [0xEE; 16])?;
    read(rt, START, b"\x2D\x12\x09\x00123456789\x42\x1C")
}

// Room for the frame, and one byte too little.
pub(crate) fn rooms(rt: &impl Print) -> io::Result<()> {
    println!(rt; "Room")?;
    write(rt, START, 0x41, b"", &mut [0xEE; 6])?;
    write(rt, START, 0x41, b"", &mut [0xEE; 5])?;
    write(rt, START, 0x12, b"1", &mut [0xEE; 7])?;
    write(rt, START, 0x12, b"1", &mut [0xEE; 6])
}

// As much data as two bytes of length can say.
pub(crate) fn longest(rt: &impl Print) -> io::Result<()> {
    let mut buffer = [0xEE; 65543];
    let written = frame::write(START, 0x12, &[0x5A; 65535], &mut buffer);
    let (message, _) = buffer.split_at(65541);
    let (_, end) = buffer.split_at(65538);
    print!(rt; "65535 bytes of data: {}; ", Writing(written))?;
    print!(rt; "from byte 65538 on: {}; ", Bytes(end))?;
    println!(rt; "read: {}", Reading(frame::read(START, message)))
}

// One byte more than that.
pub(crate) fn too_long(rt: &impl Print) -> io::Result<()> {
    let mut buffer = [0xEE; 65543];
    let written = frame::write(START, 0x12, &[0x5A; 65536], &mut buffer);
    let changed = buffer.iter().filter(|&&byte| byte != 0xEE).count();
    print!(rt; "65536 bytes of data: {}; ", Writing(written))?;
    println!(rt; "bytes of the buffer that changed: {changed}")
}

fn read(rt: &impl Print, start: u16, bytes: &[u8]) -> io::Result<()> {
    let answer = frame::read(start, bytes);
    print!(rt; "{}: {}", Bytes(bytes), Reading(answer))?;
    if answer.is_ok() {
        print!(rt; "; data: {}", Bytes(frame::data_of(bytes)))?;
    }
    println!(rt)
}

// The frame is written into a lent buffer, whose bytes past the frame stay.
fn write(
    rt: &impl Print,
    start: u16,
    second: u8,
    payload: &[u8],
    buffer: &mut [u8],
) -> io::Result<()> {
    let answer = frame::write(start, second, payload, buffer);
    print!(rt; "second byte {second:02X}, data {}: ", Bytes(payload))?;
    println!(rt; "{}; the buffer: {}", Writing(answer), Bytes(buffer))
}
