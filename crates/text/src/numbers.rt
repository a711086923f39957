// A number of 16 bits in hex.
ghost use Rattle.std.specs.Prelude.{◌≡◌};
ghost use Rattle.text.specs.Numbers.{word_in};

use crate::reader::digit_of;

// The most digits that 16 bits take.
const MOST_DIGITS: usize = 4;

// The number that one to four digits write, the highest first. `from_str_radix` would take a sign too.
#[tactic(auto, using(crate::proofs::Digits::written_digits), unfolding(crate::specs::Numbers::word_in))]
pub fn word_in(digits: &[u8]) -> Option<u16>
    ensures { result ≡ word_in digits.now }
{
    if digits.is_empty() || MOST_DIGITS < digits.len() {
        return None;
    }
    let mut number = 0;
    for &character in digits {
        number = 16 * number + u16::from(digit_of(character)?);
    }
    Some(number)
}
