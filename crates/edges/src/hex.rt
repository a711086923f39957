// Numbers and bytes as they are written in the lines: bytes as 01 prints them, `2D 41`, and many of one byte as `FF*1024`.
ghost use Rattle.std.specs.Prelude.{◌≤◌};

use crate::scan::is;

// Reads bytes into a room, word by word. None where they are not written as they should be, or there is too little room.
pub(crate) fn bytes_in<'r>(text: &[u8], room: &'r mut [u8]) -> Option<&'r [u8]> {
    let mut count = 0;
    for word in text.split_inclusive(|c| is(*c, b' ')) {
        count = with_word(count, word, room)?;
    }
    room.get(..count)
}

// One word more, behind so many bytes: a byte of two digits, and behind it how many times it stands there. The answer is how many
// bytes there are then: a count beside the room, since nothing is allocated.
fn with_word(count: usize, word: &[u8], room: &mut [u8]) -> Option<usize> {
    let [high, low, times @ ..] = word else {
        return None;
    };
    let byte = text::digit_of(*high)? << 4 | text::digit_of(*low)?;
    let end = count.checked_add(times_in(times))?;
    room.get_mut(count..end)?.fill(byte);
    Some(end)
}

fn times_in(written: &[u8]) -> usize {
    match written {
        [] | [b' '] => 1,
        _ => number_in(written, 10) as usize,
    }
}

// The number that digits write to a base. What is no digit of it is passed over, which `from_str_radix` would refuse.
pub(crate) fn number_in(text: &[u8], base: u32) -> u32
    requires { base ≤ 16 }
{
    text.iter()
        .fold(0, |number, c| with_digit(number, base, *c))
}

fn with_digit(number: u32, base: u32, character: u8) -> u32
    requires { base ≤ 16 }
{
    match text::digit_of(character).map(u32::from) {
        Some(digit) if digit < base => number % 0x1000_0000 * base + digit,
        _ => number,
    }
}
