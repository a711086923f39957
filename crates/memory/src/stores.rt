// Stores into lent memory. A store that would reach past its end is refused, and changes none of it.
ghost use Rattle.std.specs.Prelude.{◌≡◌, ◌+◌, ◌≤◌, ◌<◌, length, replicate, IfOk, OnErr};
ghost use Rattle.memory.specs.Stores.{change, replacing, programming, outcome};

use crate::{Outside, Programmed};
use std::ops::Range;

// Stores bytes as they are, from a place on.
#[tactic(auto, using(crate::proofs::Storing::storing))]
pub fn store(memory: &mut [u8], place: usize, bytes: &[u8]) -> Result<(), Outside>
    ensures { change result memory.new ≡ replacing memory.old place bytes.now }
{
    let range = range_in(memory, place, bytes.len())?;
    memory[range].copy_from_slice(bytes);
    Ok(())
}

// Stores one value so many times, from a place on.
#[tactic(auto, using(crate::proofs::Storing::storing))]
pub fn fill(memory: &mut [u8], place: usize, count: usize, value: u8) -> Result<(), Outside>
    ensures { change result memory.new ≡ replacing memory.old place (replicate count value) }
{
    let range = range_in(memory, place, count)?;
    memory[range].fill(value);
    Ok(())
}

// Clears the bits that are clear in the bytes given, from a place on, and tells whether each byte is then as it was given.
// The bits that were given as ones and could not be had are gathered, and looked at once, at the end.
#[tactic(auto, using(crate::proofs::Programming::ends))]
pub fn program(memory: &mut [u8], place: usize, bytes: &[u8]) -> Result<Programmed, Outside>
    ensures { outcome result memory.new ≡ programming memory.old place bytes.now }
{
    let range = range_in(memory, place, bytes.len())?;
    let mut missing = 0;
    // By place, and not in a zip: no proof knows the memory after a zip with `iter_mut`.
    for (i, byte) in memory[range].iter_mut().enumerate() {
        *byte &= bytes[i];
        missing |= *byte ^ bytes[i];
    }
    Ok(if missing == 0 {
        Programmed::AsGiven
    } else {
        Programmed::Differs
    })
}

// The range of so many bytes of a memory, from a place on.
fn range_in(memory: &[u8], place: usize, count: usize) -> Result<Range<usize>, Outside>
    ensures inside { IfOk result (λ range. (range.start ≡ place) × (range.end ≡ place + count) × (place + count ≤ length memory.now)) }
    ensures outside { OnErr result (length memory.now < place + count) }
{
    match place.checked_add(count) {
        Some(end) if end <= memory.len() => Ok(place..end),
        _ => Err(Outside),
    }
}
