// The block that a tape is read into, piece by piece.
ghost use Rattle.std.specs.Prelude.{◌≡◌};
ghost use Rattle.tape.specs.Blocks.{keeping, kept_rest};

// Brings to the front of a block what is left of the bytes that it holds once some of them are used, and answers how many those
// are. The rest of the block is as it was.
#[tactic(auto, unfolding(crate::specs::Blocks::keeping, crate::specs::Blocks::rest_of, memory::specs::Stores::part, frame::specs::Frame::laid))]
pub fn keep_rest(block: &mut [u8], used: usize, held: usize) -> usize
    ensures { kept_rest result block.new ≡ keeping block.old used held }
{
    let end = held.min(block.len());
    let start = used.min(end);
    block.copy_within(start..end, 0);
    end - start
}
