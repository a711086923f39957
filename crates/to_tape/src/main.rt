// Text on standard input becomes a bench tape on standard output: each line's message is a record of kind 1. A line that is wrong
// is told on standard error, and nothing behind it is read. The CRCs of its frames start from the fresh device's value, or from the
// one that the command line gives behind `--start`.
#![tactic(auto)]

mod errors;
mod lines;

use lines::Recorder;
use stream::SheetWriter;

// How many bytes each of the blocks has that are lent: one more than the longest line may have.
const ROOM: usize = 65536;

// As `bench` begins, too: one function for the three would need a closure for what stands in the middle, and be no plainer.
fn main(rt: HostRuntime) {
    let fresh = tape::fresh_settings();
    let told = arguments::start(&rt, fresh.start, &mut [0; 8], &mut [0; 8]);
    if let Ok(start) = told.asked {
        record(&rt, start);
    }
}

fn record(rt: &(impl Input + Print + Eprint), start: u16) {
    let mut block = [0; ROOM];
    let mut scratch = [0; ROOM];
    let mut message = [0; ROOM];
    let mut paper = [0; ROOM];
    let sheet = SheetWriter::empty(rt, &mut paper);
    let mut recorder = Recorder::new(start, sheet, &mut scratch, &mut message);
    if let Err(error) = stream::feed(rt, &mut block, &mut recorder) {
        let _ = rt.eprintln(error);
    }
}
