// Where the memory lies, and which ranges a command may name.
ghost use Rattle.std.specs.Prelude.{◌≡◌};
ghost use Rattle.tm32_asks.specs.Map.{in_flash, in_flash_or_ram, in_go_region, in_nvr, in_ram, in_read_region, in_user_region};

use memory::Region;

// How long a page of the flash is, and how many there are. The flash's length follows from the two.
pub const PAGE_SIZE: u32 = 1024;

pub const PAGE_COUNT: u32 = 48;

// The user flash.
pub const FLASH_START: u32 = 0x08000000;

pub const FLASH_LENGTH: u32 = PAGE_COUNT * PAGE_SIZE;

const FLASH: Region = Region {
    start: FLASH_START,
    length: FLASH_LENGTH,
};

// An erased byte of the flash.
pub const BLANK: u8 = 0xFF;

// The user RAM.
pub const RAM_START: u32 = 0x20001C00;

pub const RAM_LENGTH: u32 = 9216;

const RAM: Region = Region {
    start: RAM_START,
    length: RAM_LENGTH,
};

// NVR1 to NVR6.
pub const NVR_START: u32 = 0x1FFF0000;

pub const NVR_LENGTH: u32 = 6144;

const NVR: Region = Region {
    start: NVR_START,
    length: NVR_LENGTH,
};

// NVR5 and NVR6.
const USER_NVR: Region = Region {
    start: 0x1FFF1000,
    length: 2048,
};

// How many option bytes there are, where in the NVR they stand, and where they end.
pub(crate) const OPTIONS_LENGTH: usize = 22;

pub const OPTIONS_PLACE: usize = 0x800;

pub const OPTIONS_END: usize = OPTIONS_PLACE + OPTIONS_LENGTH;

// What Go must find room for: a stack pointer and a reset vector.
const VECTORS_LENGTH: u32 = 8;

// Whether a range lies in the one region, or in one of the first two. A function for each region, not a region to be named: it is here
// that the code's map is held against the definitions', and the crates above know these names.
pub fn in_flash(address: u32, count: u32) -> bool
    ensures { result ≡ in_flash address count }
{
    FLASH.holds(address, count)
}

pub fn in_ram(address: u32, count: u32) -> bool
    ensures { result ≡ in_ram address count }
{
    RAM.holds(address, count)
}

pub fn in_nvr(address: u32, count: u32) -> bool
    ensures { result ≡ in_nvr address count }
{
    NVR.holds(address, count)
}

pub(crate) fn in_flash_or_ram(address: u32, count: u32) -> bool
    ensures { result ≡ in_flash_or_ram address count }
{
    in_flash(address, count) || in_ram(address, count)
}

// Whether a range is one that Read may name.
#[tactic(auto, unfolding(crate::specs::Map::in_read_region))]
pub(crate) fn in_read_region(address: u32, count: u32) -> bool
    ensures { result ≡ in_read_region address count }
{
    in_flash_or_ram(address, count) || in_nvr(address, count)
}

// Whether a range is one that Write and Memory CRC may name.
#[tactic(auto, unfolding(crate::specs::Map::in_user_region))]
pub(crate) fn in_user_region(address: u32, count: u32) -> bool
    ensures { result ≡ in_user_region address count }
{
    in_flash_or_ram(address, count) || USER_NVR.holds(address, count)
}

// Whether Go may jump to an address.
pub(crate) fn in_go_region(address: u32) -> bool
    ensures { result ≡ in_go_region address }
{
    in_flash_or_ram(address, VECTORS_LENGTH)
}
