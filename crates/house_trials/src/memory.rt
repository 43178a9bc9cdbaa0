// The program over what stands in for the outside.
ghost use Rattle.std.specs.Prelude.{◌≤◌};

use crate::standing_in::{Errors, MemFiles, MemHouse};
use std::alloc::Global;
use std::cell::{Cell, RefCell};
use std::process::ExitCode;
use vk_cases::{Stage, Tried, Unreplayed, number_at, status_of, tell_text, text_at, words_of};
use vk_io::MemSink;
use vk_keeper::MemKeeper;
use vk_keeper_sql::OpenErr;
use vk_lines::push_decimal;
use vk_program::{Unopened, end, program};

/// What stands in: files, what becomes of the house, how often it was opened, and what was said on
/// standard error.
#[derive(Drop)]
pub struct Memory {
    alloc: Global,
    files: MemFiles,
    kept: Option<MemKeeper>,
    is_made: bool,
    refusal: Option<Unopened>,
    closing_fails: bool,
    opened: Cell<u64>,
    said: RefCell<String>,
}

impl Memory {
    /// No files, a house in which nothing is kept yet, and nothing fails.
    pub fn new(alloc: Global) -> Memory {
        Memory {
            alloc,
            files: MemFiles::new(alloc),
            kept: None,
            is_made: false,
            refusal: None,
            closing_fails: false,
            opened: Cell::new(0),
            said: RefCell::new(String::new(alloc)),
        }
    }

    /// Runs the program of a step's words, and tells with which status it ends.
    fn run(&mut self, step: &[u8], told: &mut Vec<u8>) -> Tried<()> {
        let words = words_of(self.alloc, step)?;
        let code = self.code_of(words);
        Ok(push_decimal(told, status_of(code))?)
    }

    /// With which code the program of these words ends, of which the first stands for its name.
    /// What is kept stays for the next command.
    fn code_of(&mut self, words: Vec<String>) -> ExitCode {
        let house = MemHouse {
            alloc: self.alloc,
            kept: self.kept.take(),
            refusal: self.refusal,
            is_made: self.is_made,
            closing_fails: self.closing_fails,
            opened: &self.opened,
            faults: 0,
        };
        let mut out = MemSink::new(self.alloc);
        let errors = (Errors { said: &self.said }, self.alloc);
        let words = Ok(words.into_iter());
        let (code, house) = program(words, &errors, house, &mut self.files, &mut out);
        self.kept = house.kept;
        code
    }

    /// Tells all that was said on standard error since the trial began.
    fn tell_said(&self, told: &mut Vec<u8>) -> Tried<()> {
        match self.said.try_borrow() {
            Ok(said) => tell_text(told, said.as_str()),
            Err(_) => Err(Unreplayed::Outside),
        }
    }

    /// Says what is said of a status, and tells that it is ended with.
    fn end(&self, status: u64, told: &mut Vec<u8>) -> Tried<()>
        requires { status ≤ 9 }
    {
        let errors = Errors { said: &self.said };
        Ok(push_decimal(told, status_of(end(&errors, status as u8)))?)
    }

    /// Puts a file with the challenge of these bits under that name.
    fn put_challenge(&mut self, name: &str, bits: &str) -> Tried<()> {
        let text = format!(in self.alloc; "vickrey-challenge 1\nbits {bits}\nend\n")?;
        self.files.inner.put_file(name, text.as_bytes())?;
        Ok(())
    }
}

/// Why a house is refused that is to be refused so.
fn refusal_of(word: &str) -> Option<Unopened> {
    match word {
        "version" => Some(Unopened::Store(OpenErr::Version { rows: 1, number: 7 })),
        "store" => Some(Unopened::Store(OpenErr::Refused)),
        "exposed" => Some(Unopened::Exposed),
        "anothers" => Some(Unopened::Anothers),
        "linked" => Some(Unopened::Linked),
        "beside" => Some(Unopened::Beside),
        "memory" => Some(Unopened::Store(OpenErr::NoMemory)),
        _ => None,
    }
}

impl Stage for Memory {
    fn begin(&mut self) {
        *self = Memory::new(self.alloc);
    }

    /// - `run WORD ..`: the program of these words, and its status.
    /// - `opened`: how often the house was opened since the trial began.
    /// - `said`: all that was said on standard error since then.
    /// - `end STATUS`: what is said of a status is said.
    /// - `challenge NAME BITS`: a file with the challenge of these bits.
    /// - `refuse WHY`: from now on the house is refused.
    /// - `made yes`, `made no`: whether it is made already, where nothing is kept in it.
    /// - `closing fails`, `closing works`, `settling fails`: what becomes of that from now on.
    fn take(&mut self, word: &str, step: &[u8], told: &mut Vec<u8>) -> Tried<()> {
        let how = text_at(step, 1)?;
        match word {
            "run" => return self.run(step, told),
            "opened" => return Ok(push_decimal(told, self.opened.get())?),
            "said" => return self.tell_said(told),
            "end" => return self.end(number_at(step, 1, 9)?, told),
            "challenge" => self.put_challenge(how, text_at(step, 2)?)?,
            "refuse" => self.refusal = refusal_of(how),
            "made" => self.is_made = how == "yes",
            "closing" => self.closing_fails = how == "fails",
            "settling" => self.files.settling_fails = how == "fails",
            _ => return Err(Unreplayed::NoCase),
        }
        tell_text(told, "so")
    }
}
