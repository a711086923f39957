// Standard input, read to its end and handed on piece by piece.
ghost use Rattle.std.specs.Prelude.{List, Result, ℕ};
ghost use Rattle.stream.specs.Inputs.{Feeds};
ghost use Rattle.stream.specs.declared.errors.FillError as code;

use crate::{FillError, fill, first};

// What is fed with an input. An implementation that has more to promise says it in the three relations.
pub trait Consumer {
    type Error;

    ghost consumes: { Self → List ℕ → Result ℕ Self.Error → Self → Type 0 } = { λ _ _ _ _. Unit {0} };

    ghost finishes: { Self → List ℕ → Result Unit Self.Error → Self → Type 0 } = { λ _ _ _ _. Unit {0} };

    ghost refuses: { Self → code.FillError → Self.Error → Self → Type 0 } = { λ _ _ _ _. Unit {0} };

    // What is held of the input: how many of these bytes are done with. The rest comes again, with more behind it.
    fn consume(&mut self, bytes: &[u8]) -> Result<usize, Self::Error>
        ensures { consumes self.old bytes.now result self.new };

    // What is left where the input ends.
    fn finish(&mut self, rest: &[u8]) -> Result<(), Self::Error>
        ensures { finishes self.old rest.now result self.new };

    // The input cannot be read on.
    fn refuse(&mut self, error: FillError) -> Self::Error
        ensures { refuses self.old error result self.new };
}

// Reads standard input to its end, in a block that is lent. What is left is brought to the front here: `tape::keep_rest`, which does
// the same, is of a crate that does not stand below this one. A proved loop has to end, and nothing says that the input does: the turns
// are counted, up to a number that no run reaches.
pub fn feed<C: Consumer>(
    rt: &impl Input,
    block: &mut [u8],
    consumer: &mut C,
) -> Result<(), C::Error>
    ensures { Feeds C.consumes C.finishes C.refuses consumer.old result consumer.new }
{
    let mut held = 0;
    for _ in 0..u64::MAX {
        match fill(rt, block, held) {
            Ok(Some(now)) => {
                let used = consumer.consume(first(block, now))?.min(now);
                block.copy_within(used..now, 0);
                held = now - used;
            }
            Ok(None) => return consumer.finish(first(block, held)),
            Err(error) => return Err(consumer.refuse(error)),
        }
    }
    Err(consumer.refuse(FillError::Failed))
}
