//! Trials at far places of large files: an auction of 64 seals at width 40 in two lanes, and one of
//! 64 lanes, which the program's own commands make, last of all under a reserve. Steps in a file
//! change lines of their files and run a command. Of each it prints what the program said, and how
//! far it read.
#![tactic(auto)]

mod changes;
mod stage;
mod steps;

use crate::stage::Stage;
use crate::steps::step_text;
use std::alloc::Global;
use std::process::ExitCode;
use vk_cases::{Replay, Replayed, read_cases, replay_here};
use vk_io::{Shelf, Sink};

/// The trials, which are the steps of the file `steps`, one a line.
struct FarTrials;

impl Replay for FarTrials {
    fn replay<S: Shelf, W: Sink>(&self, alloc: Global, folder: &mut S, out: &mut W) -> Replayed {
        let steps = read_cases(alloc, folder, "steps")?;
        let mut stage = Stage::new(alloc);
        let replayed = take_steps(alloc, &mut stage, folder, out, steps.as_slice());
        replayed
    }
}

/// Takes the steps, one a line.
fn take_steps<S: Shelf, W: Sink>(
    alloc: Global,
    stage: &mut Stage,
    folder: &mut S,
    out: &mut W,
    steps: &[u8],
) -> Replayed {
    for step in steps.split(|byte| *byte == b'\n') {
        let text = step_text(alloc, stage, folder, step)?;
        out.put(text.as_slice())?;
    }
    Ok(())
}

fn main(rt: HostRuntime) -> ExitCode {
    replay_here(&rt, &FarTrials)
}
