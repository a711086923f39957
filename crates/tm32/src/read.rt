// Read: the bytes that a range names, lent on as a part of the memory that holds them.
ghost use Rattle.std.specs.Prelude.{cond, true, ◌≡◌, ◌-◌, length};
ghost use Rattle.memory.specs.Ranges.{within};
ghost use Rattle.memory.specs.Stores.{part};
ghost use Rattle.tm32.specs.Device.{bytes_at};
ghost use Rattle.tm32.specs.Promises.{held, lent_of};
ghost use Rattle.tm32_asks.specs.Map.{flash_length, flash_start, in_flash, in_flash_or_ram, in_read_region, ram_length, ram_start};

use crate::mapped::MappedMemory;
use tm32_asks::{FLASH_START, NVR_START, RAM_START, in_flash, in_nvr};

// The bytes of a range in flash, RAM or NVR.
#[tactic(auto, unfolding(crate::specs::Device::bytes_at, tm32_asks::specs::Map::in_read_region, memory::specs::Ranges::within))]
pub(crate) fn work<'a>(memory: &'a MappedMemory, address: u32, count: u32) -> &'a [u8]
    requires { in_read_region address count ≡ true }
    ensures { result.now ≡ bytes_at (held (lent_of memory.now)) address count }
{
    if in_nvr(address, count) {
        return range_of(memory.nvr, NVR_START, address, count);
    }
    picked(memory.flash, memory.ram, address, count)
}

// The bytes of a range in flash or RAM: the address says in which. The two slices stay apart: document 01 names this form.
#[tactic(auto, unfolding(memory::specs::Ranges::within))]
fn picked<'a>(flash: &'a [u8], ram: &'a [u8], address: u32, count: u32) -> &'a [u8]
    requires flash_sized { length flash.now ≡ flash_length }
    requires ram_sized { length ram.now ≡ ram_length }
    requires inside { in_flash_or_ram address count ≡ true }
    ensures { result.now
        ≡ cond (in_flash address count) (part flash.now (address - flash_start) count)
        (part ram.now (address - ram_start) count) }
{
    if in_flash(address, count) {
        return range_of(flash, FLASH_START, address, count);
    }
    range_of(ram, RAM_START, address, count)
}

// The bytes of a range in a memory that starts at an address.
#[tactic(auto, unfolding(memory::specs::Stores::part, memory::specs::Ranges::within))]
fn range_of(memory: &[u8], start: u32, address: u32, count: u32) -> &[u8]
    requires { within start (length memory.now) address count ≡ true }
    ensures { result.now ≡ part memory.now (address - start) count }
{
    let place = (address - start) as usize;
    let end = place + count as usize;
    &memory[place..end]
}
