// What a command works on, in memory, and what it says.
use crate::commands::{Given, ID, Line};
use std::alloc::Global;
use vk_app::run;
use vk_cases::{Tried, Unreplayed, behind, read_cases, words_of};
use vk_io::{MemShelf, MemSink, Shelf};
use vk_keeper::{Auction, Keeper, MemKeeper};

/// What is outside of a command, of which a call may fail.
#[derive(Clone, Copy)]
pub enum Outside {
    Shelf,
    Keeper,
    Sink,
}

/// Files, auctions that are kept, what was printed, and how the last command ended. It is lent to
/// what is tried in it, and made and dropped in one place: what an error drops takes seconds to
/// prove.
#[derive(Drop)]
pub struct World {
    pub alloc: Global,
    pub files: MemShelf,
    keeper: MemKeeper,
    /// How many calls of the keeper were made by what was done before.
    turns: u64,
    out: MemSink,
    /// The status of the last command.
    pub status: u8,
    /// How many bytes had been printed before it.
    printed: usize,
    /// All that was kept of the auction when it was looked at last, as text.
    pub kept: String,
}

impl World {
    /// No files, and a keeper that keeps nothing.
    pub fn new(alloc: Global) -> World {
        World {
            alloc,
            files: MemShelf::new(alloc),
            keeper: MemKeeper::new(alloc),
            turns: 0,
            out: MemSink::new(alloc),
            status: 0,
            printed: 0,
            kept: String::new(alloc),
        }
    }

    /// Has these files, and a keeper after these commands of a house, each of which is done over
    /// the files, which stand as they were after that.
    pub fn begin<S: Shelf>(&mut self, shelf: &mut S, given: Given, before: &[Line]) -> Tried<()> {
        self.keeper = MemKeeper::new(self.alloc);
        self.turns = 0;
        self.take(shelf, given)?;
        self.do_each(before)?;
        self.take(shelf, given)
    }

    /// Has the files of these names, and nothing printed.
    fn take<S: Shelf>(&mut self, shelf: &mut S, given: Given) -> Tried<()> {
        self.files = MemShelf::new(self.alloc);
        self.out = MemSink::new(self.alloc);
        for name in given.names() {
            put_given(self.alloc, shelf, &mut self.files, name)?;
        }
        Ok(())
    }

    /// Does commands of a house, each of which gets an auction once and puts it once.
    fn do_each(&mut self, before: &[Line]) -> Tried<()> {
        for line in before {
            self.run(*line)?;
            self.turns = self.turns.saturating_add(2);
            if self.status != 0 {
                return Err(Unreplayed::NoCase);
            }
        }
        Ok(())
    }

    /// Has the call of that number fail, of those that are still to be made.
    pub fn fail_at(&mut self, outside: Outside, call: u64) -> Tried<()> {
        match outside {
            Outside::Shelf => self.files.fail_at(call)?,
            Outside::Keeper => self.keeper.fail_at(self.turns.saturating_add(call))?,
            Outside::Sink => self.out.fail_at(call)?,
        }
        Ok(())
    }

    /// Runs the command, which prints behind what was printed before.
    pub fn run(&mut self, line: Line) -> Tried<()> {
        self.printed = self.out.bytes().len();
        let words = words_of(self.alloc, line.words().as_bytes())?;
        self.status = run(
            self.alloc,
            words.as_slice(),
            &mut self.files,
            &mut self.keeper,
            &mut self.out,
        );
        Ok(())
    }

    /// What the last command printed.
    pub fn text(&self) -> &[u8] {
        behind(self.out.bytes(), self.printed)
    }

    /// Whether the last command ended with this status and said this.
    pub fn said(&self, status: u8, text: &[u8]) -> bool {
        self.status == status && self.text() == text
    }

    /// Looks at all that is kept of the auction.
    pub fn look(&mut self) -> Tried<()> {
        let auction = self.keeper.get(&ID)?;
        let looked = self.note(&auction);
        looked
    }

    /// Notes what is kept.
    fn note(&mut self, auction: &Option<Auction>) -> Tried<()> {
        let alloc = self.alloc;
        self.kept = format!(in alloc; "{auction:?}")?;
        Ok(())
    }
}

/// Puts the file of that name into memory.
fn put_given<S: Shelf>(
    alloc: Global,
    shelf: &mut S,
    files: &mut MemShelf,
    name: &str,
) -> Tried<()> {
    let bytes = read_cases(alloc, shelf, name)?;
    files.put_file(name, bytes.as_slice())?;
    Ok(())
}
