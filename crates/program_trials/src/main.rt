//! Trials of the program over a store in the folder that it runs in. The steps are those of a file,
//! and of each it prints what came of it.
#![tactic(auto)]

use std::process::ExitCode;
use vk_cases::replay_here;
use vk_folder_cases::{FolderTrials, Program};
use vk_program::{HousePlace, StoreHouse, run_over};

/// The program over the store of the folder.
#[derive(Drop)]
struct OverStore;

impl Program for OverStore {
    fn run(&self, rt: &HostRuntime, words: Vec<String>) -> ExitCode {
        run_over(rt, Ok(words.into_iter()), StoreHouse::of(rt))
    }

    fn run_beside(&self, rt: &HostRuntime, words: Vec<String>) -> Option<ExitCode> {
        let mut house = StoreHouse::of(rt);
        let code = run_beside(&mut house, rt, words);
        code
    }
}

/// Runs the program while a keeper of the house is open. It is generic since a keeper of the real
/// store is dearer to drop.
fn run_beside<H: HousePlace>(
    house: &mut H,
    rt: &HostRuntime,
    words: Vec<String>,
) -> Option<ExitCode> {
    let Ok(keeper) = house.open() else {
        return None;
    };
    let code = OverStore.run(rt, words);
    if house.close(keeper).is_err() {
        return None;
    }
    Some(code)
}

fn main(rt: HostRuntime) -> ExitCode {
    let program = OverStore;
    replay_here(&rt, &FolderTrials { rt: &rt, program })
}
