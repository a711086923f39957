// The device on trial: its session and settings, its memory, and how much of that is lent.
use crate::lines::Setting;
use tm32::{
    FLASH_LENGTH, LentMemory, Link, NVR_LENGTH, RAM_LENGTH, REPLY_ROOM, Refusal, Session, Settings,
};
use tm32_asks::{FLASH_START, NVR_START, RAM_START};

// How many bytes there are of flash, RAM, NVR and reply buffer: each one more than the device asks for, so that too much can be lent,
// too.
const FLASH_ROOM: usize = FLASH_LENGTH as usize + 1;

const RAM_ROOM: usize = RAM_LENGTH as usize + 1;

const NVR_ROOM: usize = NVR_LENGTH as usize + 1;

const BUFFER_ROOM: usize = REPLY_ROOM + 1;

// What the reply buffer holds as it is lent.
const UNTOUCHED: u8 = 0xEE;

// The message that opens a case.
pub(crate) const HELLO: &[u8] = b"\x7F";

#[derive(Drop)]
pub(crate) struct Bench {
    session: Session,
    settings: Settings,
    lent: Lent,
    memory: Memory,
    buffer: [u8; BUFFER_ROOM],
}

#[derive(Drop)]
struct Memory {
    flash: [u8; FLASH_ROOM],
    ram: [u8; RAM_ROOM],
    nvr: [u8; NVR_ROOM],
}

impl Memory {
    // As much as is lent of each, and no more than there is.
    fn lend(&mut self, lent: Lent) -> LentMemory<'_> {
        let Memory { flash, ram, nvr } = self;
        LentMemory {
            flash: front(flash, lent.flash),
            ram: front(ram, lent.ram),
            nvr: front(nvr, lent.nvr),
        }
    }

    // So many bytes from an address on, where they lie in one memory.
    fn part(&self, address: u32, count: usize) -> Option<&[u8]> {
        let (memory, start): (&[u8], u32) = match address {
            RAM_START.. => (&self.ram, RAM_START),
            NVR_START.. => (&self.nvr, NVR_START),
            FLASH_START.. => (&self.flash, FLASH_START),
            _ => return None,
        };
        memory.get((address - start) as usize..)?.get(..count)
    }
}

// How many bytes of each are lent, of memory that has more: a case may lend too little.
#[derive(Clone, Copy, Debug, PartialEq, Eq)]
struct Lent {
    flash: usize,
    ram: usize,
    nvr: usize,
    buffer: usize,
}

// As many as the device asks for.
const ENOUGH: Lent = Lent {
    flash: FLASH_LENGTH as usize,
    ram: RAM_LENGTH as usize,
    nvr: NVR_LENGTH as usize,
    buffer: REPLY_ROOM,
};

impl Bench {
    pub(crate) fn new() -> Self {
        Bench {
            session: Session::start(Link::Uart),
            settings: tape::fresh_settings(),
            lent: ENOUGH,
            memory: Memory {
                flash: [0; FLASH_ROOM],
                ram: [0; RAM_ROOM],
                nvr: [0; NVR_ROOM],
            },
            buffer: [0; BUFFER_ROOM],
        }
    }

    pub(crate) fn session(&self) -> Session {
        self.session
    }

    // What a CRC starts from.
    pub(crate) fn start(&self) -> u16 {
        self.settings.start
    }

    // The whole reply buffer.
    pub(crate) fn buffer(&self) -> &[u8] {
        &self.buffer
    }

    // So many bytes of the memory from an address on, where they lie in one.
    pub(crate) fn part(&self, address: u32, count: usize) -> Option<&[u8]> {
        self.memory.part(address, count)
    }

    pub(crate) fn set(&mut self, setting: Setting) {
        match setting {
            Setting::Waiting(link) | Setting::Talking(link) => {
                self.session = self.session.restart(link);
            }
            Setting::Start(start) => self.settings = self.settings.starting_from(start),
            // No message can give a session this rate.
            Setting::Code(rate) => {
                self.session = Session {
                    rate,
                    ..self.session
                };
            }
            Setting::Flash(count) => self.lent.flash = count,
            Setting::Ram(count) => self.lent.ram = count,
            Setting::Nvr(count) => self.lent.nvr = count,
            Setting::Buffer(count) => self.lent.buffer = count,
        }
    }

    // Makes the device fresh, and shakes hands.
    pub(crate) fn begin(&mut self) -> Result<&[u8], Refusal> {
        self.settings = tape::fresh_settings();
        self.lent = ENOUGH;
        self.session = tape::fresh(&mut self.memory.lend(self.lent))?;
        self.answer(HELLO)
    }

    // The reply to a message.
    pub(crate) fn answer(&mut self, message: &[u8]) -> Result<&[u8], Refusal> {
        self.buffer.fill(UNTOUCHED);
        let turn = self.session.answer(
            self.settings,
            message,
            &mut self.memory.lend(self.lent),
            front(&mut self.buffer, self.lent.buffer),
        );
        self.session = turn.session;
        let length = turn.answer?;
        Ok(stream::first(&self.buffer, length))
    }
}

fn front(memory: &mut [u8], lent: usize) -> &mut [u8] {
    let count = lent.min(memory.len());
    &mut memory[..count]
}
