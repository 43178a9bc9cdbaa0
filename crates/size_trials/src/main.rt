//! Every command at every size: auctions, claims, coins, scripts and faults of each number of
//! seals, lanes, bits and lines, small in all but one number, as the steps of a file say them. It
//! prints what ended otherwise than it has to, and how many of each were tried.
#![tactic(auto)]

mod counts;
mod digests;
mod loops;
mod numbers;
mod parts;
mod stage;
mod steps;
mod texts;
mod watched;

use crate::loops::take_blocks;
use crate::stage::Stage;
use std::alloc::Global;
use std::process::ExitCode;
use vk_cases::{Replay, Replayed, Tried, read_cases, replay_here};
use vk_io::{Shelf, Sink};

/// The trials, which are the steps of the file `steps`.
struct SizeTrials;

impl Replay for SizeTrials {
    fn replay<S: Shelf, W: Sink>(&self, alloc: Global, folder: &mut S, out: &mut W) -> Replayed {
        let steps = read_cases(alloc, folder, "steps")?;
        let parts = read_cases(alloc, folder, "parts")?;
        let mut stage = Stage::new(alloc);
        let taken = tell_all(&mut stage, out, steps.as_slice(), parts.as_slice());
        taken
    }
}

/// Takes all steps, and prints what is told of them.
fn tell_all<W: Sink>(stage: &mut Stage, out: &mut W, steps: &[u8], parts: &[u8]) -> Tried<()> {
    let taken = take_all(stage, steps, parts);
    stage.told.print(out)?;
    taken
}

/// Takes all steps, which find the file `parts`, and tells how many of each were tried.
fn take_all(stage: &mut Stage, steps: &[u8], parts: &[u8]) -> Tried<()> {
    stage.files.put(b"parts", parts)?;
    take_blocks(stage, steps)?;
    stage.sum_up();
    Ok(())
}

fn main(rt: HostRuntime) -> ExitCode {
    replay_here(&rt, &SizeTrials)
}
