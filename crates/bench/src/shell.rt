// A thin shell over the player: it reads the tape in blocks, has each block played, and writes the records that come of it.
ghost use Rattle.std.specs.Prelude.{◌-◌, ◌≤◌, ◌<◌, IfOk, length};

use crate::errors::BenchError;
use tape::Stop;
use tm32::{LentMemory, Settings};

// Plays all of standard input on a fresh device with some settings. A proved loop has to end, and nothing says that the input does:
// the turns are counted, up to a number that no run reaches. It is no consumer of `stream::feed`: for want of room for replies it
// plays on, and reads nothing.
#[tactic(auto, using(tape::proofs::Handed::used_within, tape::proofs::Handed::written_within))]
pub(crate) fn run(
    rt: &(impl Input + Print),
    settings: Settings,
    memory: &mut LentMemory,
    block: &mut [u8],
    replies: &mut [u8],
) -> Result<(), BenchError>
    requires { 4096 ≤ length block.old }
{
    let mut session = tape::fresh(memory).map_err(BenchError::Memory)?;
    // Which bytes of the block are tape that was not played yet, and whether the input ended behind them: counts beside the block, since
    // nothing is allocated.
    let mut from = 0;
    let mut held = 0;
    let mut ends = false;
    for _ in 0..u64::MAX {
        let played = tape::play(session, settings, &block[from..held], ends, memory, replies);
        rt.write_all(&replies[..played.written])?;
        session = played.session;
        from += played.used;
        match played.stop {
            Stop::Room => {}
            Stop::MoreTape => {
                (held, ends) = read_on(rt, block, from, held)?;
                from = 0;
            }
            Stop::End | Stop::Error(_) => return Ok(()),
            Stop::Refused(refusal) => return Err(BenchError::Device(refusal)),
        }
    }
    Ok(())
}

// Keeps what was not played, and reads on behind it: how many bytes are held then, and whether the input has ended behind them. Both,
// and no Option: what is held is still to be played where the input has ended.
fn read_on(
    rt: &impl Input,
    block: &mut [u8],
    from: usize,
    held: usize,
) -> Result<(usize, bool), BenchError>
    requires unplayed { (from ≤ held) × (held ≤ length block.old) }

    // So the block is never full.
    requires room { held - from < length block.old }
    ensures { IfOk result (λ more. more.0 ≤ length block.new) }
{
    let rest = tape::keep_rest(block, from, held);
    let more = stream::fill(rt, block, rest)?;
    Ok((more.unwrap_or(rest), more.is_none()))
}
