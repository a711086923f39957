// What the command line of a program says: nothing, or behind `--start` the value that a CRC starts from.
#![tactic(auto)]

mod command_line;
mod errors;

pub use command_line::{Told, start, start_in};
pub use errors::ArgumentError;
