// Standard input, read whole.
use stream::FillError;

// The input, which stands at the start of the block: a length beside it until all is read, since nothing is allocated.
pub(crate) fn read_all<'a>(rt: &impl Input, block: &'a mut [u8]) -> Result<&'a [u8], FillError> {
    let mut length = 0;
    while let Some(held) = stream::fill(rt, block, length)? {
        length = held;
    }
    Ok(stream::first(block, length))
}
