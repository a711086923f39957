// What a line of the cases says. The first lines of the file `stdin` tell how they are written.
use crate::hex;
use crate::scan::is;
use tm32::Link;

// How long a message may be, and so what stands for it on a line.
pub(crate) const ROOM: usize = 4096;

// A line, by its first character.
#[derive(Clone, Copy, Debug, PartialEq, Eq)]
pub(crate) enum Line<'a> {
    Heading,
    // A case in words.
    Case(&'a [u8]),
    Setting(Setting),
    // A message to be sent.
    Message(&'a [u8]),
    // A message that only prepares a case.
    Quiet(&'a [u8]),
    Question(Question),
    // A remark, or nothing.
    Remark,
    // It is not understood.
    Wrong,
}

// What a line sets up.
#[derive(Clone, Copy, Debug, PartialEq, Eq)]
pub(crate) enum Setting {
    // The session restarts on a link.
    Waiting(Link),
    // The same, and shakes hands.
    Talking(Link),
    // What a CRC starts from.
    Start(u16),
    // The rate code.
    Code(u8),
    // How many bytes are lent.
    Flash(usize),
    Ram(usize),
    Nvr(usize),
    Buffer(usize),
}

// What a line asks to see.
#[derive(Clone, Copy, Debug, PartialEq, Eq)]
pub(crate) enum Question {
    Session,
    Buffer,
    Memory { address: u32, count: usize },
}

impl<'a> Line<'a> {
    // Takes a line apart, and puts its message into a room. The CRC of a frame starts from a value.
    pub(crate) fn read(start: u16, text: &'a [u8], room: &'a mut [u8]) -> Self {
        let body = stream::behind(text, 2);
        match text.first() {
            None | Some(b' ' | b'#') => Line::Remark,
            Some(b'*') => Line::Heading,
            Some(b'=') => Line::Case(body),
            Some(b'@') => Line::Setting(Setting::read(body)),
            Some(b'?') => Line::Question(Question::read(body)),
            Some(b'>') => framed_in(start, body, room).map_or(Line::Wrong, Line::Message),
            Some(b'.') => framed_in(start, body, room).map_or(Line::Wrong, Line::Quiet),
            Some(b'!') => hex::bytes_in(body, room).map_or(Line::Wrong, Line::Message),
            Some(_) => Line::Wrong,
        }
    }
}

impl Setting {
    // The first letter of its first word says what it is, and where it is none of the others it is the buffer.
    fn read(body: &[u8]) -> Self {
        let (name, value) = words_in(body);
        let count = hex::number_in(value, 10) as usize;
        let number = hex::number_in(value, 16);
        match name.first() {
            Some(b'w') => Setting::Waiting(link_of(value)),
            Some(b't') => Setting::Talking(link_of(value)),
            Some(b's') => Setting::Start((number % 0x1_0000) as u16),
            Some(b'c') => Setting::Code((number % 0x100) as u8),
            Some(b'f') => Setting::Flash(count),
            Some(b'r') => Setting::Ram(count),
            Some(b'n') => Setting::Nvr(count),
            _ => Setting::Buffer(count),
        }
    }
}

impl Question {
    fn read(body: &[u8]) -> Self {
        let (name, value) = words_in(body);
        match name.first() {
            Some(b's') => Question::Session,
            Some(b'b') => Question::Buffer,
            _ => Question::Memory {
                address: hex::number_in(name, 16),
                count: hex::number_in(value, 10) as usize,
            },
        }
    }
}

fn link_of(value: &[u8]) -> Link {
    match value.first() {
        Some(b's') => Link::Spi,
        Some(b'i') => Link::I2c,
        _ => Link::Uart,
    }
}

// The first word, and what stands behind it.
fn words_in(body: &[u8]) -> (&[u8], &[u8]) {
    let mut words = body.splitn(2, |c| is(*c, b' '));
    let first = words.next().unwrap_or(b"");
    (first, words.next().unwrap_or(b""))
}

// The first byte is the command, and the others are its data.
fn framed_in<'r>(start: u16, body: &[u8], room: &'r mut [u8]) -> Option<&'r [u8]> {
    let mut told = [0; ROOM];
    let (command, data) = hex::bytes_in(body, &mut told)?.split_first()?;
    let length = frame::write(start, *command, data, room).ok()?;
    room.get(..length)
}
