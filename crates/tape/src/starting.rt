// The device that a tape starts on: 01, "The bench tape".
ghost use Rattle.std.specs.Prelude.{◌≡◌, ◌≢◌, MatchResult, length};
ghost use Rattle.tm32.specs.Fresh.{fresh_settings};
ghost use Rattle.tm32.specs.Promises.{SameSlices, held};
ghost use Rattle.tape.specs.Starting.{started_by, starting};

use tm32::{FLASH_LENGTH, LentMemory, Link, NVR_LENGTH, RAM_LENGTH, Refusal, Session, Settings};
use tm32_asks::{BLANK, OPTIONS_PLACE};

// The option bytes, halfword by halfword: read protection off, and four ranges that start above their end.
const OPTIONS: [u8; 22] = [
    0xAA, 0x00, 0x00, 0x00, 0xFF, 0x00, 0x00, 0x00, 0xFF, 0x00, 0x00, 0x00, 0xFF, 0x00, 0x00, 0x00,
    0xFF, 0x00, 0x00, 0x00, 0x00, 0x00,
];

// Makes lent memory that of a fresh device, and starts a session. Memory of another length is refused, and none of it is changed.
#[tactic(auto, unfolding(crate::specs::Starting::starting, tm32::specs::After::call_checks, tm32_asks::specs::Checks::verdict))]
pub fn fresh(memory: &mut LentMemory) -> Result<Session, Refusal>
    ensures same_slices { SameSlices memory.old memory.new }
    ensures outcome { started_by result (held memory.new) ≡ starting (held memory.old) }
{
    check(memory.flash.len(), FLASH_LENGTH, Refusal::FlashLength)?;
    check(memory.ram.len(), RAM_LENGTH, Refusal::RamLength)?;
    check(memory.nvr.len(), NVR_LENGTH, Refusal::NvrLength)?;
    memory.flash.fill(BLANK);
    memory.ram.fill(0);
    memory.nvr.fill(0);
    memory.nvr[OPTIONS_PLACE..OPTIONS_PLACE + OPTIONS.len()].copy_from_slice(&OPTIONS);
    Ok(Session::start(Link::Uart))
}

// Whether memory has its length. One function for it and for a failed check of a request would be no plainer: each has words of its own.
fn check(length: usize, right: u32, refusal: Refusal) -> Result<(), Refusal>
    ensures { MatchResult result (λ _. length ≡ right) (λ error. (length ≢ right) × (error ≡ refusal)) }
{
    if length == right as usize {
        Ok(())
    } else {
        Err(refusal)
    }
}

// The settings of that device.
#[tactic(auto, unfolding(tm32::specs::Fresh::fresh_settings))]
pub fn fresh_settings() -> Settings
    ensures { result ≡ fresh_settings }
{
    Settings {
        version: [0x00, 0x01],
        serial: [0; 12],
        package: 0,
        model: 0,
        links: 0x7F,
        start: 0,
    }
}
