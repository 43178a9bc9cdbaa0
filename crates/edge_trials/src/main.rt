//! Trials of the real files and of an output, in a folder of the program's own, and of the same
//! where calls to the system go wrong. The steps are those of a file, and of each it prints what
//! came of it.
#![tactic(auto)]

mod edge;
mod faulty;
mod making;
mod output;
mod plan;
mod room;
mod seeing;
mod shelf_steps;
mod steps;
mod trials;

use crate::room::Room;
use crate::trials::try_all;
use std::alloc::Global;
use std::process::ExitCode;
use vk_cases::{Replay, Replayed, read_cases, replay_here};
use vk_io::{Shelf, Sink};

/// The trials of the file `steps`, over the files that `rt` reaches.
#[derive(Drop)]
struct EdgeTrials<'a> {
    rt: &'a HostRuntime,
}

impl Replay for EdgeTrials<'_> {
    fn replay<S: Shelf, W: Sink>(&self, alloc: Global, folder: &mut S, out: &mut W) -> Replayed {
        let steps = read_cases(alloc, folder, "steps")?;
        let room = Room::new(self.rt)?;
        try_all(&room, steps.as_slice(), out)?;
        room.clear()
    }
}

fn main(rt: HostRuntime) -> ExitCode {
    replay_here(&rt, &EdgeTrials { rt: &rt })
}
