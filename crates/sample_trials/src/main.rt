//! Samples over files that stay as they are; matchings that are proposed; and what is said of seeds
//! that are dry and of a second reply that is refused. Of each it prints what came of it.
#![tactic(auto)]

mod proposals;
mod samples;
mod sayings;

use std::alloc::Global;
use std::process::ExitCode;
use vk_cases::{Replay, Replayed, Text, Tried, replay_here};
use vk_io::{Shelf, Sink};

/// All that is put on trial.
struct SampleTrials;

impl Replay for SampleTrials {
    fn replay<S: Shelf, W: Sink>(&self, alloc: Global, shelf: &mut S, out: &mut W) -> Replayed {
        let mut text = Text::new(alloc);
        let told = tell_all(alloc, shelf, out, &mut text);
        told
    }
}

/// Tries all, and tells what came of it.
fn tell_all<S: Shelf, W: Sink>(
    alloc: Global,
    shelf: &mut S,
    out: &mut W,
    text: &mut Text,
) -> Tried<()> {
    proposals::push_proposals(alloc, text)?;
    samples::push_samples(alloc, shelf, text)?;
    text.print(out)?;
    sayings::tell_sayings(alloc, out, text)
}

fn main(rt: HostRuntime) -> ExitCode {
    replay_here(&rt, &SampleTrials)
}
