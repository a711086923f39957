// Commands in words, by number. Document 01, "The ten commands".

// The command of a sound frame. By its number: there is no type for a command without its fields, and a tape may hold any number.
pub(crate) fn command(code: u8) -> &'static str {
    match code {
        0x00 => "PPS",
        0x01 => "Get",
        0x11 => "Read",
        0x12 => "Write",
        0x13 => "Memory CRC",
        0x14 => "Erase",
        0x21 => "Go",
        0x31 => "Write options",
        0x32 => "Read options",
        0x41 => "Heart beat",
        _ => "a command that this chip does not know",
    }
}
