// The lines of a text, and a line as a message: hex as it stands, or a command and its data, framed.
ghost use Rattle.std.specs.Prelude.{◌≡◌};
ghost use Rattle.text.specs.Hex.{bytes_in};
ghost use Rattle.text.specs.Lines.{commanding, is_command, line_end, lined, message_in, outcome, plainly};

use crate::LineError;
use crate::reader::bytes_in;

// The character that asks for a frame.
const MARK: u8 = b'>';

// Where the line that starts at a place of a text ends: at its newline, or where the text does.
pub fn line_end(text: &[u8], from: usize) -> usize
    ensures { result ≡ line_end text.now from }
{
    let rest = text.get(from..).unwrap_or(&[]);
    let length = rest.iter().position(|&character| character == b'\n');
    from + length.unwrap_or(rest.len())
}

// Reads a line of text and lays its message over the start of the message's buffer, which a refusal leaves alone. So long is the
// message; None where nothing stands before the comment. The scratch buffer takes the bytes of a line that is to be framed, and
// holds them even where their frame is refused; else it is left alone. The CRC of a frame starts from a value.
#[tactic(auto, unfolding(crate::specs::Lines::message_in, crate::specs::Lines::framing, crate::specs::Hex::bytes_in, crate::specs::Hex::reading, frame::specs::Frame::laid))]
pub fn message_in(
    start: u16,
    line: &[u8],
    scratch: &mut [u8],
    message: &mut [u8],
) -> Result<Option<usize>, LineError>
    ensures { outcome scratch.new (lined result message.new)
        ≡ message_in start line.now scratch.old message.old }
{
    if !is_command(line) {
        return plain_in(line, message);
    }
    let count = bytes_in(line, 1, scratch)?;
    framed(start, &scratch[..count], message)
}

// Whether a line gives a command to be framed.
#[tactic(auto, unfolding(crate::specs::Lines::is_command))]
fn is_command(line: &[u8]) -> bool
    ensures { result ≡ is_command line.now }
{
    line.first() == Some(&MARK)
}

// A line of hex as it stands. No bytes are no message.
#[tactic(auto, unfolding(crate::specs::Lines::plain))]
fn plain_in(line: &[u8], message: &mut [u8]) -> Result<Option<usize>, LineError>
    ensures { lined result message.new ≡ plainly (bytes_in line.now 0 message.old) }
{
    let count = bytes_in(line, 0, message)?;
    Ok((count != 0).then_some(count))
}

// The frame of a command and its data.
#[tactic(auto, unfolding(crate::specs::Lines::framed, crate::specs::Lines::commanding))]
fn framed(start: u16, bytes: &[u8], message: &mut [u8]) -> Result<Option<usize>, LineError>
    ensures { lined result message.new ≡ commanding start bytes.now message.old }
{
    let Some((command, payload)) = bytes.split_first() else {
        return Err(LineError::NoCommand);
    };
    let length = frame::write(start, *command, payload, message)?;
    Ok(Some(length))
}
