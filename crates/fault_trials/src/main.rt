//! Files that are cut at each of their bytes, and a fault at each call of a command, whose outside
//! stands in memory. Of each it prints whether all was told, and nothing left that may not be.
#![tactic(auto)]

mod commands;
mod cuts;
mod faults;
mod stops;
mod world;

use crate::stops::Worlds;
use std::alloc::Global;
use std::process::ExitCode;
use vk_cases::{Replay, Replayed, Text, replay_here};
use vk_io::{Shelf, Sink};

/// All that is put on trial.
struct FaultTrials;

impl Replay for FaultTrials {
    fn replay<S: Shelf, W: Sink>(&self, alloc: Global, shelf: &mut S, out: &mut W) -> Replayed {
        let mut worlds = Worlds::new(alloc);
        let mut text = Text::new(alloc);
        let tried = try_all(shelf, &mut worlds, &mut text);
        let printed = text.print(out);
        printed.and(tried)
    }
}

/// Puts all on trial in these worlds, and tells of it there.
fn try_all<S: Shelf>(shelf: &mut S, worlds: &mut Worlds, text: &mut Text) -> Replayed {
    cuts::try_cuts(shelf, worlds, text)?;
    faults::try_faults(shelf, worlds, text)
}

fn main(rt: HostRuntime) -> ExitCode {
    replay_here(&rt, &FaultTrials)
}
