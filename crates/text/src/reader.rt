// Bytes in hex: two digits a byte, with blanks or nothing between two bytes.
ghost use Rattle.std.specs.Prelude.{◌≡◌, drop, set};
ghost use Rattle.text.specs.Hex.{bytes_in, digit_of, hex_from, read};
ghost use Rattle.text.specs.Walk.{walking};

use crate::HexError;

// The character that starts a comment.
const HASH: u8 = b'#';

// Reads a line from a place on, and lays its bytes over the start of a buffer: so many. A refusal leaves every byte of it alone.
#[tactic(auto, using(crate::proofs::Endings::stored), unfolding(crate::specs::Hex::bytes_in, crate::specs::Hex::reading, crate::specs::Walk::walking, crate::specs::Walk::counted))]
pub fn bytes_in(line: &[u8], from: usize, buffer: &mut [u8]) -> Result<usize, HexError>
    ensures { read result buffer.new ≡ bytes_in line.now from buffer.old }
{
    // The first walk has no room: it only counts.
    let count = walk(line, from, &mut [])?;
    if buffer.len() < count {
        return Err(HexError::NoRoom);
    }
    walk(line, from, buffer)
}

// Counts the bytes of a line from a place on, and stores those for which the buffer has room. A loop over what is left, and no iterator:
// a blank is one character, and a byte two.
#[tactic(auto, using(crate::proofs::Digits::below_16), unfolding(crate::specs::Hex::hex_from, crate::specs::Hex::second_from, crate::specs::Hex::is_blank, crate::specs::Walk::walking, crate::specs::Walk::counted))]
fn walk(line: &[u8], from: usize, buffer: &mut [u8]) -> Result<usize, HexError>
    ensures { read result buffer.new
        ≡ walking 0 (hex_from (drop from line.now) from) buffer.old }
{
    let mut count = 0;
    let mut rest = line.get(from..).unwrap_or(&[]);
    loop {
        let place = line.len() - rest.len();
        match rest {
            [] | [HASH, ..] => return Ok(count),
            [b' ' | b'\t' | b'\r', behind @ ..] => rest = behind,
            [first, behind @ ..] => {
                let high = digit_of(*first).ok_or(HexError::NotHex { place })?;
                // Inside a byte only the second digit is right.
                let wrong = HexError::NotHex { place: place + 1 };
                let (second, behind) = behind.split_first().ok_or(wrong)?;
                let low = digit_of(*second).ok_or(wrong)?;
                put(buffer, count, 16 * high + low);
                count += 1;
                rest = behind;
            }
        }
    }
}

// Stores a byte where there is room for it.
// By place: through what `get_mut` or `iter_mut` lends the proof does not close.
fn put(buffer: &mut [u8], place: usize, value: u8)
    ensures { buffer.new ≡ set buffer.old place value }
{
    if place < buffer.len() {
        buffer[place] = value;
    }
}

// The number that a digit stands for.
#[tactic(auto, unfolding(crate::specs::Hex::digit_of))]
pub fn digit_of(character: u8) -> Option<u8>
    ensures { result ≡ digit_of character }
{
    let digit = char::from(character).to_digit(16)?;
    Some(digit as u8)
}
