// Runs the worked cases of document 01 on the device and prints a line for each: the case in words, then what came of it.
// The cases stand in the file `stdin` beside src/, and what is right in `stdout`.
#![tactic(auto)]

mod bench;
mod cases;
mod hex;
mod input;
mod lines;
mod report;
mod scan;
mod show;

use stream::{FillError, Onward};

// How long the cases may be.
const BLOCK_ROOM: usize = 65536;

fn main(rt: HostRuntime) {
    let mut block = [0; BLOCK_ROOM];
    // Where standard output cannot be written, there is nobody left to tell, and what comes behind is tried all the same.
    let _ = match input::read_all(&rt, &mut block) {
        Ok(text) => cases::run(&Onward(&rt), text),
        Err(FillError::Full) => println!(rt; "There are too many cases."),
        Err(FillError::Failed) => println!(rt; "The cases could not be read."),
    };
}
