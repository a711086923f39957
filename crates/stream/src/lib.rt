// What the programs read and write by: a block that standard input is read into piece by piece, a sheet on which what goes to
// standard output is collected, and standard output that goes on where a write fails.
#![tactic(auto)]

mod blocks;
mod errors;
mod inputs;
mod onward;
mod parts;
mod sheets;

pub use blocks::fill;
pub use errors::FillError;
pub use inputs::{Consumer, feed};
pub use onward::Onward;
pub use parts::{behind, first};
pub use sheets::{Sheet, SheetWriter};
