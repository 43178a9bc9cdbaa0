//! Trials of the program but for its `main`, over what stands in for the outside: a house, files
//! and standard error in memory. The steps are those of a file, and of each it prints what came of
//! it.
#![tactic(auto)]

mod memory;
mod standing_in;

use crate::memory::Memory;
use std::alloc::Global;
use std::process::ExitCode;
use vk_cases::{Replay, Replayed, Tried, replay_here, take_file};
use vk_io::{Shelf, Sink};

/// The steps of the file `steps`.
#[derive(Drop)]
struct HouseTrials;

impl Replay for HouseTrials {
    fn replay<S: Shelf, W: Sink>(&self, alloc: Global, folder: &mut S, out: &mut W) -> Replayed {
        take_steps(alloc, folder, out)?;
        Ok(())
    }
}

/// Takes the steps on what stands in, which is made and dropped here alone, and lent to them: what
/// an error drops takes seconds to prove.
fn take_steps<S: Shelf, W: Sink>(alloc: Global, folder: &mut S, out: &mut W) -> Tried<()> {
    let mut memory = Memory::new(alloc);
    let taken = take_file(alloc, &mut memory, folder, "steps", out);
    taken
}

fn main(rt: HostRuntime) -> ExitCode {
    replay_here(&rt, &HouseTrials)
}
