//! Replays what independent implementations worked out of files and of the whole program: which
//! line of a changed file is the first that may not stand there, and runs. What is printed is to
//! be, byte for byte, what those implementations wrote.
#![tactic(auto)]

mod files;
mod house;
mod houses;
mod runs;

use crate::house::House;
use std::alloc::Global;
use std::process::ExitCode;
use vk_cases::{Form, Text, Tried, replay_forms};
use vk_io::Shelf;

/// What a file of cases has, one case a line.
enum Cases {
    /// `NAME | seal` or `NAME | secret`.
    Files,
    /// `NAME | NAME=FILE .. | WORD ..`: the files that a run of the program is given, and its
    /// words.
    Runs,
    /// `NAME | NAME=FILE .. | WORD .. | WORD ..`: the files that a house is given, and its
    /// commands. `forget` stands for a house that knows nothing. `fail-shelf N`, `fail-keeper N`
    /// and `fail-sink N` have the call of that number fail, from 1, which is made of its files, its
    /// keeper or what it prints to.
    Houses,
}

impl Form for Cases {
    fn file(&self) -> &'static str {
        match self {
            Cases::Files => "files",
            Cases::Runs => "runs",
            Cases::Houses => "houses",
        }
    }

    fn text<S: Shelf>(&self, alloc: Global, shelf: &mut S, case: &[u8]) -> Tried<Vec<u8>> {
        let mut house = House::new(alloc);
        let mut text = Text::new(alloc);
        put_case(shelf, &mut house, &mut text, self, case)?;
        let bytes = text.into_bytes()?;
        Ok(bytes)
    }
}

/// What comes of the case over a house that has nothing.
fn put_case<S: Shelf>(
    shelf: &mut S,
    house: &mut House,
    text: &mut Text,
    form: &Cases,
    case: &[u8],
) -> Tried<()> {
    if let Cases::Files = form {
        return files::put_fault(house.alloc, shelf, text, case);
    }
    let (name, parts) = house.begin(shelf, case)?;
    match form {
        Cases::Houses => houses::put_house(house, text, name, parts),
        _ => runs::put_run(house, text, name, parts),
    }
}

fn main(rt: HostRuntime) -> ExitCode {
    replay_forms(&rt, &[Cases::Files, Cases::Runs, Cases::Houses])
}
