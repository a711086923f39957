// Plays a tape on a fresh device: records on standard input, records on standard output. Document 01, "The bench tape". Behind
// `--start` the command line may give another start value of the CRC than the fresh device has.
#![tactic(auto)]

mod errors;
mod shell;

use tm32::{FLASH_LENGTH, LentMemory, NVR_LENGTH, RAM_LENGTH, Settings};

// The text tools begin so, too; one function for the three would need a closure for what stands in the middle, and be no plainer.
fn main(rt: HostRuntime) {
    let fresh = tape::fresh_settings();
    let told = arguments::start(&rt, fresh.start, &mut [0; 8], &mut [0; 8]);
    if let Ok(start) = told.asked {
        play(&rt, fresh.starting_from(start));
    }
}

fn play(rt: &(impl Input + Print + Eprint), settings: Settings) {
    let mut memory = LentMemory {
        flash: &mut [0; FLASH_LENGTH as usize],
        ram: &mut [0; RAM_LENGTH as usize],
        nvr: &mut [0; NVR_LENGTH as usize],
    };
    let mut block = [0; 65536];
    let mut replies = [0; 65536];
    if let Err(error) = shell::run(rt, settings, &mut memory, &mut block, &mut replies) {
        let _ = rt.eprintln(error);
    }
}
