// What the steps work on.
use crate::changes::{put_file, with_line};
use std::alloc::Global;
use vk_app::run;
use vk_cases::{Tried, Unreplayed, WatchedShelf, words_of};
use vk_io::MemSink;
use vk_keeper::MemKeeper;

/// A file as it was before a line of it was changed.
#[derive(Drop)]
struct Replaced {
    name: String,
    bytes: Vec<u8>,
}

/// Files and auctions in memory, and what is put back behind the next run.
#[derive(Drop)]
pub struct Stage {
    alloc: Global,
    pub shelf: WatchedShelf,
    keeper: MemKeeper,
    replaced: Vec<Replaced>,
}

impl Stage {
    /// No files, and a house that knows nothing.
    pub fn new(alloc: Global) -> Stage {
        Stage {
            alloc,
            shelf: WatchedShelf::new(alloc),
            keeper: MemKeeper::new(alloc),
            replaced: Vec::new(alloc),
        }
    }

    /// The house knows nothing again.
    pub fn forget(&mut self) {
        self.keeper = MemKeeper::new(self.alloc);
    }

    /// Has this text in place of a line of the named file, until the next run is over.
    pub fn change(&mut self, name: String, number: u64, text: &[u8]) -> Tried<()> {
        let file = self.shelf.file(name.as_str()).ok_or(Unreplayed::NoCase)?;
        let bytes = Vec::from_slice(self.alloc, file)?;
        let changed = with_line(self.alloc, file, number, text)?;
        put_file(&mut self.shelf, name.as_str(), changed.as_slice())?;
        self.replaced.push(Replaced { name, bytes })?;
        Ok(())
    }

    /// How many bytes the named file has, 0 where it isn't there.
    pub fn length(&self, name: &str) -> u64 {
        self.shelf.file(name).unwrap_or(&[]).len() as u64
    }

    /// Runs the command of these words, which prints there, and puts all back that was
    /// changed. Answers its status.
    pub fn run(&mut self, line: &[u8], out: &mut MemSink) -> Tried<u8> {
        let words = words_of(self.alloc, line)?;
        self.shelf.watch(words.as_slice())?;
        let status = run(
            self.alloc,
            words.as_slice(),
            &mut self.shelf,
            &mut self.keeper,
            out,
        );
        self.shelf.have_too_long(false);
        put_back(&mut self.shelf, self.replaced.as_slice())?;
        self.replaced.clear();
        Ok(status)
    }
}

/// Has each file as it was before its first change.
fn put_back(shelf: &mut WatchedShelf, replaced: &[Replaced]) -> Tried<()> {
    for file in replaced.iter().rev() {
        put_file(shelf, file.name.as_str(), file.bytes.as_slice())?;
    }
    Ok(())
}
