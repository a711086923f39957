// The block that standard input is read into.
ghost use Rattle.stream.specs.Blocks.{ReadsOn};

use crate::FillError;
use std::io::Read;

// Reads on behind the bytes that a block holds: how many it holds now, or none where the input has ended. A count beside the block, since
// nothing is allocated. No contract can say what comes.
pub fn fill(rt: &impl Input, block: &mut [u8], held: usize) -> Result<Option<usize>, FillError>
    ensures { ReadsOn result held block.old block.new }
{
    if block.len() <= held {
        return Err(FillError::Full);
    }
    match rt.reader().read(&mut block[held..]) {
        Ok(0) => Ok(None),
        Ok(count) => Ok(Some(held + count)),
        Err(_) => Err(FillError::Failed),
    }
}
