// Get tells what chip this is.
ghost use Rattle.std.specs.Prelude.{◌≡◌};
ghost use Rattle.tm32.specs.Work.{information};

use crate::Settings;

// The command word: bits 0 to 8.
const COMMANDS: u32 = 0x1FF;

// Version, serial, package, model, commands, links.
pub(crate) fn work(settings: Settings) -> [u8; 24]
    ensures { result ≡ information settings }
{
    let mut bytes = [0; 24];
    bytes[..2].copy_from_slice(&settings.version);
    bytes[2..14].copy_from_slice(&settings.serial);
    bytes[14] = settings.package;
    bytes[15] = settings.model;
    bytes[16..20].copy_from_slice(&COMMANDS.to_le_bytes());
    bytes[20..].copy_from_slice(&settings.links.to_le_bytes());
    bytes
}
