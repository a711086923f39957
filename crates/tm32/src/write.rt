// Write: flash loses bits, RAM and NVR take the bytes as they are.
ghost use Rattle.std.specs.Prelude.{cond, true, ◌≡◌, ◌≤◌, ◌+◌, length};
ghost use Rattle.memory.specs.Stores.{kept, replaced, same};
ghost use Rattle.memory.specs.declared.Programmed.TheVariants.{AsGiven, Differs};
ghost use Rattle.tm32_asks.specs.Checks.{most_bytes};
ghost use Rattle.tm32.specs.Promises.{SameSlices, held, lent_of};
ghost use Rattle.tm32_asks.specs.Map.{in_user_region};
ghost use Rattle.tm32_asks.specs.Results.{number_of};
ghost use Rattle.tm32.specs.Work.{programmed_result, readback, written};

use crate::mapped::MappedMemory;
use memory::Programmed;
use tm32_asks::{Complaint, FLASH_START, NVR_START, RAM_START, in_flash, in_ram};

// Writes bytes, and gives the result. RAM and NVR always read back as they were sent.
#[tactic(auto, unfolding(crate::specs::Work::written, crate::specs::Work::readback, crate::specs::Work::programmed_result, crate::specs::Device::bytes_at, tm32_asks::specs::Map::in_user_region), using(memory::proofs::Laws::stored, memory::proofs::Laws::region_holds, memory::proofs::Laws::part_of_replaced, memory::proofs::Laws::same_itself, crate::proofs::Written::kept_reads))]
pub(crate) fn work(
    memory: &mut MappedMemory,
    flag: u8,
    address: u32,
    bytes: &[u8],
) -> Result<(), Complaint>
    requires short { length bytes.now ≤ most_bytes }
    requires inside { in_user_region address (length bytes.now) ≡ true }
    ensures same_slices { SameSlices (lent_of memory.old) (lent_of memory.new) }
    ensures outcome { (held (lent_of memory.new) ≡ written (held (lent_of memory.old)) address bytes.now)
        × (number_of result ≡ readback flag address bytes.now (written (held (lent_of memory.old)) address bytes.now)) }
{
    let count = bytes.len() as u32;
    if in_flash(address, count) {
        return program(memory.flash, (address - FLASH_START) as usize, flag, bytes);
    }
    if in_ram(address, count) {
        memory::store(memory.ram, (address - RAM_START) as usize, bytes).unwrap();
        return Ok(());
    }
    memory::store(memory.nvr, (address - NVR_START) as usize, bytes).unwrap();
    Ok(())
}

// Programs bytes of the flash, and tells where some byte is not what was sent, if the flag asks for that.
#[tactic(auto, unfolding(crate::specs::Work::programmed_result), using(memory::proofs::Laws::programmed))]
fn program(flash: &mut [u8], place: usize, flag: u8, bytes: &[u8]) -> Result<(), Complaint>
    requires { place + length bytes.now ≤ length flash.old }
    ensures { (flash.new ≡ replaced flash.old place (kept flash.old place bytes.now))
        × (number_of result ≡ programmed_result flag
        (cond (same (kept flash.old place bytes.now) bytes.now) AsGiven Differs)) }
{
    match memory::program(flash, place, bytes).unwrap() {
        Programmed::Differs if flag == 1 => Err(Complaint::ReadbackDiffers),
        _ => Ok(()),
    }
}
