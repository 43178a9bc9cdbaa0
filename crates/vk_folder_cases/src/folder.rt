// The folder that trials of a program run in, and what a step does there.
use crate::making::make;
use crate::seeing::see;
use std::alloc::Global;
use std::fs;
use std::process::ExitCode;
use vk_cases::{
    Replay, Replayed, Stage, Tried, Unreplayed, behind, behind_word, status_of, take_file,
    tell_text, text_at, text_in, words_of,
};
use vk_io::{Shelf, Sink};
use vk_lines::push_decimal;

/// What the commands of a trial leave in the folder.
const LEFT: [&str; 14] = [
    "house.sqlite",
    "house.sqlite-wal",
    "house.sqlite-shm",
    "house.sqlite-journal",
    "first",
    "other",
    "secret",
    "seal",
    "board",
    "reply",
    "none",
    "script",
    "link",
    "elsewhere",
];

/// What trials run: a program whose house is in the folder.
pub trait Program: Drop {
    /// Runs it with these words, of which the first stands for its name.
    fn run(&self, rt: &HostRuntime, words: Vec<String>) -> ExitCode;

    /// The same, while another keeper has the house open. None where it can't be opened, or closed
    /// behind that.
    fn run_beside(&self, rt: &HostRuntime, words: Vec<String>) -> Option<ExitCode>;
}

/// Trials of a program in the folder that it runs in, whose steps are those of the file `steps`.
#[derive(Drop)]
pub struct FolderTrials<'a, P: Program> {
    pub rt: &'a HostRuntime,
    pub program: P,
}

impl<P: Program> Replay for FolderTrials<'_, P> {
    fn replay<S: Shelf, W: Sink>(&self, alloc: Global, folder: &mut S, out: &mut W) -> Replayed {
        let mut real = Folder {
            rt: self.rt,
            program: &self.program,
        };
        take_file(alloc, &mut real, folder, "steps", out)?;
        real.clear();
        Ok(())
    }
}

/// The folder, and the program that is run there.
#[derive(Drop)]
struct Folder<'a, P: Program> {
    rt: &'a HostRuntime,
    program: &'a P,
}

impl<P: Program> Folder<'_, P> {
    /// Takes away what a trial left.
    fn clear(&self) {
        for name in LEFT {
            let _ = fs::remove_file(self.rt, name);
        }
        let _ = fs::remove_dir(self.rt, "there");
    }

    /// Runs the program of a step's words, and tells with which status it ends.
    fn run(&self, step: &[u8], told: &mut Vec<u8>) -> Tried<()> {
        let words = words_of(self.rt.alloc(), step)?;
        let code = self.program.run(self.rt, words);
        Ok(push_decimal(told, status_of(code))?)
    }

    /// Runs it while another keeper has the house open, and tells the same.
    fn run_beside(&self, step: &[u8], told: &mut Vec<u8>) -> Tried<()> {
        let words = words_of(self.rt.alloc(), step)?;
        let Some(code) = self.program.run_beside(self.rt, words) else {
            return Err(Unreplayed::Outside);
        };
        Ok(push_decimal(told, status_of(code))?)
    }
}

impl<P: Program> Stage for Folder<'_, P> {
    fn begin(&mut self) {
        self.clear();
    }

    /// - `run WORD ..`: the program of these words, and its status, behind what it prints.
    /// - `beside WORD ..`: the same, while another keeper has the house open.
    /// - `see NAME`: the mode and the length of what has that name, by a link too.
    /// - What is made or taken away: see [`make`].
    fn take(&mut self, word: &str, step: &[u8], told: &mut Vec<u8>) -> Tried<()> {
        match word {
            "run" => self.run(step, told),
            "beside" => self.run_beside(step, told),
            "see" => see(self.rt, text_at(step, 1)?, told),
            _ => {
                let name = text_at(step, 1)?;
                let rest = behind(behind_word(step, word), name.len().saturating_add(1));
                match make(self.rt, word, name, text_in(rest)?) {
                    Ok(()) => tell_text(told, "made"),
                    Err(_) => Err(Unreplayed::Outside),
                }
            }
        }
    }
}
