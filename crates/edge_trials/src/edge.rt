// What the steps of a trial work on.
use crate::faulty::Faulty;
use crate::output::Output;
use crate::plan::Plan;
use crate::room::Room;
use std::io::{PipeReader, PipeWriter};
use vk_files::{FileShelf, OutSink};

/// The shelf and the output on trial. The shelf's calls go to the real files, but those that are
/// planned to go wrong; what it reads and writes is really there.
#[derive(Drop)]
pub struct Edge<'a> {
    pub room: &'a Room<'a>,
    pub plan: &'a Plan,
    pub output: &'a Output<'a>,
    pub shelf: FileShelf<'a, Faulty<'a, HostRuntime>>,
    pub sink: OutSink<'a, Output<'a>>,
    /// A pipe that a step made, both of whose ends are open.
    pub pipe: Option<(PipeReader, PipeWriter)>,
    /// When a file was written last that a step named, in seconds and nanoseconds.
    pub noted: Option<(i64, i64)>,
}

impl<'a> Edge<'a> {
    /// Over these calls to the system and that output, with a store at the path `store`.
    pub fn new(
        room: &'a Room<'a>,
        system: &'a Faulty<'a, HostRuntime>,
        output: &'a Output<'a>,
        store: &'a str,
    ) -> Edge<'a> {
        Edge {
            room,
            plan: system.plan,
            output,
            shelf: FileShelf::new(system, room.alloc, store),
            sink: OutSink::new(output),
            pipe: None,
            noted: None,
        }
    }
}
