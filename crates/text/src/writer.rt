// Bytes written in hex.
ghost use Rattle.std.specs.Prelude.{◌≡◌, ◌<◌};
ghost use Rattle.text.specs.Hex.{digit_for, hex_of};

// A byte as two digits.
#[tactic(auto, unfolding(crate::specs::Hex::hex_of))]
pub fn hex_of(byte: u8) -> [u8; 2]
    ensures { result ≡ hex_of byte }
{
    [digit_for(byte / 16), digit_for(byte % 16)]
}

// The digit that stands for a number. With `char::from_digit`, which gives small letters, it would be no plainer.
#[tactic(auto, unfolding(crate::specs::Hex::digit_for))]
fn digit_for(number: u8) -> u8
    requires { number < 16 }
    ensures { result ≡ digit_for number }
{
    match number {
        0..=9 => b'0' + number,
        _ => b'A' + (number - 10),
    }
}
