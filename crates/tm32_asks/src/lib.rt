// What a message asks the TM32G07x for, and whether it may: the lower half of the device. `tm32` does what is asked, and answers.

#![tactic(auto)]

mod checks;
mod map;
mod options;
mod requests;
mod results;

pub use checks::{is_rate, verdict};
pub use map::{
    BLANK, FLASH_LENGTH, FLASH_START, NVR_LENGTH, NVR_START, OPTIONS_END, OPTIONS_PLACE,
    PAGE_COUNT, PAGE_SIZE, RAM_LENGTH, RAM_START, in_flash, in_nvr, in_ram,
};
pub use options::rdp_on;
pub use requests::{bytes_to_write, request_in};
pub use results::{Complaint, NoComplaint, number_of};

// What the host is connected by.
#[derive(Clone, Copy, Debug, PartialEq, Eq)]
pub enum Link {
    Uart,
    Spi,
    I2c,
}

// What a Talking device reads in a message: one of the ten commands with its fields, or none. The bytes of a write and of the
// option bytes stay in the message, beside this. The fields are numbers, as the theorems name them: an address and a count apart, and
// the readback flag as it was sent.
#[derive(Clone, Copy, Debug, PartialEq, Eq)]
pub enum Request {
    Pps { code: u8 },
    Get,
    Read { address: u32, count: u32 },
    Write { flag: u8, address: u32, count: u32 },
    MemoryCrc { address: u32, count: u32, crc: u16 },
    Erase { first: u32, count: u32 },
    Go { address: u32 },
    WriteOptions,
    ReadOptions,
    HeartBeat,
    // None of the ten: what 01 calls a failure of shape. It stays a request, since the theorems speak of every request, of this too.
    Misshapen,
}
