// The start value of a CRC, from the command line.
ghost use Rattle.std.specs.Prelude.{◌≡◌};
ghost use Rattle.arguments.specs.CommandLine.{Answers, start_in};

use crate::ArgumentError;
use std::env::{Env, FillError};

// The word that a start value stands behind.
const NAME: &[u8] = b"--start";

// What was found on the command line, and the start value that it asks for.
#[derive(Clone, Copy, Debug, PartialEq, Eq)]
pub struct Told {
    // How many words there are, the program's own name among them.
    pub count: usize,
    // How long the second and the third are, whose bytes stand at the start of the two buffers.
    // Lengths and no slices: the two buffers are lent, and the contract speaks of them as they are handed back.
    pub name: usize,
    pub value: usize,
    pub asked: Result<u16, ArgumentError>,
}

// The start value that this program's command line asks for, and another where it asks for none. What is refused is told on
// standard error. A word that is missing, or longer than the buffer that is lent for it, counts as an empty one.
pub fn start(rt: &(impl Env + Eprint), otherwise: u16, name: &mut [u8], value: &mut [u8]) -> Told
    ensures { Answers otherwise result name.new value.new }
{
    let count = words(rt);
    let name_length = rt.arg(1, name).unwrap_or(0);
    let value_length = rt.arg(2, value).unwrap_or(0);
    let asked = start_in(
        otherwise,
        count,
        &name[..name_length],
        &value[..value_length],
    );
    if let Err(error) = asked {
        let _ = rt.eprintln(error);
    }
    Told {
        count,
        name: name_length,
        value: value_length,
        asked,
    }
}

// How many words there are on the command line, the program's own name among them. Only whether a word is there is looked at, so no
// room is lent for it.
fn words(rt: &impl Env) -> usize {
    (0..usize::MAX)
        .find(|i| matches!(rt.arg(*i, &mut []), Err(FillError::NotPresent)))
        .unwrap_or(usize::MAX)
}

// The start value that is asked for by so many arguments, the program's own name among them, of which the second and the third
// are these.
#[tactic(auto, using(crate::proofs::Laws::alike), unfolding(crate::specs::CommandLine::start_in, crate::specs::CommandLine::told))]
pub fn start_in(
    otherwise: u16,
    count: usize,
    name: &[u8],
    value: &[u8],
) -> Result<u16, ArgumentError>
    ensures { result ≡ start_in otherwise count name.now value.now }
{
    match count {
        0 | 1 => Ok(otherwise),
        3 if name == NAME => text::word_in(value).ok_or(ArgumentError::NotHex),
        _ => Err(ArgumentError::NoSuch),
    }
}
