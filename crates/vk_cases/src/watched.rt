// A shelf that notes how far each of its files was read, and may leave them as they are.
ghost use Rattle.std.specs.Prelude.{◌≡◌, None};

use std::alloc::Global;
use vk_io::{MemShelf, OutsideErr, PieceShelf, Shelf};
use vk_residue::NoMemory;

/// One byte more than a file may have that a command reads.
const TOO_LONG: u64 = (1 << 30) + 1;

/// The greatest place up to which a file was read.
#[derive(Drop)]
struct Reach {
    name: String,
    place: u64,
}

/// Files in memory that are read and written in pieces, and how far each was read. Where they are
/// fixed they stay as they are, whatever is written, and where they are too long each is said to
/// have a byte more than it may have. It isn't modelled.
#[derive(Drop)]
pub struct WatchedShelf {
    inner: PieceShelf,
    is_fixed: bool,
    is_too_long: bool,
    reached: Vec<Reach>,
    alloc: Global,
}

impl WatchedShelf {
    /// No files.
    pub fn new(alloc: Global) -> WatchedShelf {
        WatchedShelf {
            inner: PieceShelf::over(MemShelf::new(alloc)),
            is_fixed: false,
            is_too_long: false,
            reached: Vec::new(alloc),
            alloc,
        }
    }

    /// These files, which stay as they are.
    pub fn fixed(alloc: Global, files: MemShelf) -> WatchedShelf {
        WatchedShelf {
            inner: PieceShelf::over(files),
            is_fixed: true,
            is_too_long: false,
            reached: Vec::new(alloc),
            alloc,
        }
    }

    /// What the named file holds. None where the name isn't held.
    pub fn file(&self, name: &str) -> Option<&[u8]> {
        self.inner.inner().file(name)
    }

    /// Has every file too long from now on, or as long as it is.
    pub fn have_too_long(&mut self, is_too_long: bool) {
        self.is_too_long = is_too_long;
    }

    /// Watches the files of these names from now on.
    pub fn watch(&mut self, names: &[String]) -> Result<(), NoMemory> {
        self.reached.clear();
        for name in names {
            let name = String::from_str(self.alloc, name.as_str())?;
            self.reached.push(Reach { name, place: 0 })?;
        }
        Ok(())
    }

    /// The greatest place up to which the named file was read, where it is watched.
    pub fn reach(&self, name: &str) -> u64 {
        for reach in &self.reached {
            if reach.name.as_str() == name {
                return reach.place;
            }
        }
        0
    }

    /// Notes that the named file was read up to this place. It takes no memory.
    fn note(&mut self, name: &str, place: u64)
        ensures { self.new.inner ≡ self.old.inner }
    {
        for reach in self.reached.iter_mut() {
            if reach.name.as_str() == name {
                reach.place = reach.place.max(place);
            }
        }
    }
}

impl Shelf for WatchedShelf {
    ghost held = { λ _. None };

    ghost faults = { λ s. s.inner.faults };

    ghost wants = { λ s. s.inner.inner.wants };

    ghost length_gives = { λ _ _ _ _. Unit {0} };

    fn length(&mut self, name: &str) -> Result<Option<u64>, OutsideErr> {
        if self.is_too_long {
            return Ok(Some(TOO_LONG));
        }
        self.inner.length(name)
    }

    fn read_at(&mut self, name: &str, at: u64, into: &mut [u8]) -> Result<usize, OutsideErr> {
        let read = self.inner.read_at(name, at, into)?;
        if 0 < read {
            self.note(name, at.saturating_add(read as u64));
        }
        Ok(read)
    }

    fn create(&mut self, name: &str) -> Result<(), OutsideErr> {
        if self.is_fixed {
            return Ok(());
        }
        self.inner.create(name)
    }

    fn append(&mut self, name: &str, piece: &[u8]) -> Result<(), OutsideErr> {
        if self.is_fixed {
            return Ok(());
        }
        self.inner.append(name, piece)
    }
}
