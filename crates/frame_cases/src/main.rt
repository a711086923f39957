// Runs the frames that document 01 prints, each as it is and spoiled in six ways, and the writer's bounds, and prints a line for each.
// What is right stands in the file `stdout` beside src/.
#![tactic(auto)]

mod show;
mod spoiled;
mod tally;
mod wire;

use std::io;
use stream::Onward;

fn main(rt: HostRuntime) {
    // Where standard output cannot be written, there is nobody left to tell, and what comes behind is tried all the same.
    let _ = run(&Onward(&rt));
}

fn run(rt: &impl Print) -> io::Result<()> {
    wire::sums(rt)?;
    wire::printed(rt, [0x2D, 0x41, 0x00, 0x00, 0x55, 0x24])?;
    wire::printed(rt, [0x2D, 0x90, 0x00, 0x00, 0xF1, 0x76])?;
    wire::printed(rt, [0x2D, 0x80, 0x00, 0x00, 0x92, 0x35])?;
    wire::other_start(rt)?;
    wire::with_data(rt)?;
    wire::rooms(rt)?;
    wire::longest(rt)?;
    wire::too_long(rt)
}
