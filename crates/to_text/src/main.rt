// A bench tape on standard input becomes text on standard output, a line a record. The CRCs of its frames start from the fresh
// device's value, or from the one that the command line gives behind `--start`.
#![tactic(auto)]

mod errors;
mod records;
mod words;

use records::Describer;
use stream::SheetWriter;

// Room for the longest record and as much again.
const BLOCK: usize = 131072;

// How much is collected before it is written out.
const PAPER: usize = 65536;

// As `bench` begins, too: one function for the three would need a closure for what stands in the middle, and be no plainer.
fn main(rt: HostRuntime) {
    let fresh = tape::fresh_settings();
    let told = arguments::start(&rt, fresh.start, &mut [0; 8], &mut [0; 8]);
    if let Ok(start) = told.asked {
        describe(&rt, start);
    }
}

fn describe(rt: &(impl Input + Print + Eprint), start: u16) {
    let mut block = [0; BLOCK];
    let mut paper = [0; PAPER];
    let mut describer = Describer::new(start, SheetWriter::empty(rt, &mut paper));
    if let Err(error) = stream::feed(rt, &mut block, &mut describer) {
        let _ = rt.eprintln(error);
    }
}
