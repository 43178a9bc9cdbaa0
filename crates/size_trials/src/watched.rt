// A shelf that counts which names are looked at that the words don't have, and a sink that counts
// what is put and is no line.
ghost use Rattle.std.specs.Prelude.{◌≡◌, None};

use std::alloc::Global;
use vk_cases::{Tried, cut, place_of, text_in};
use vk_io::{MemShelf, MemSink, OutsideErr, Shelf, Sink};
use vk_residue::NoMemory;

/// One byte more than a file may have that a command reads.
const TOO_LONG: u64 = (1 << 30) + 1;

/// Files in memory. One of them may be said to be missing, and one to have a byte more than it may
/// have. It isn't modelled.
#[derive(Drop)]
pub struct WatchedFiles {
    pub inner: MemShelf,
    /// The name of the one that is said to be missing.
    pub missing: Vec<u8>,
    /// The name of the one that is said to be too long.
    pub long: Vec<u8>,
    /// The names that the words of a run have, with spaces between them.
    named: Vec<u8>,
    /// How often another one was looked at.
    pub strange: u64,
}

impl WatchedFiles {
    /// No files.
    pub fn new(alloc: Global) -> WatchedFiles {
        WatchedFiles {
            inner: MemShelf::new(alloc),
            missing: Vec::new(alloc),
            long: Vec::new(alloc),
            named: Vec::new(alloc),
            strange: 0,
        }
    }

    /// What the named file holds, nothing where the name isn't held.
    pub fn file(&self, name: &[u8]) -> Tried<&[u8]> {
        Ok(self.inner.file(text_in(name)?).unwrap_or(&[]))
    }

    /// Makes the named file hold these bytes.
    pub fn put(&mut self, name: &[u8], bytes: &[u8]) -> Tried<()> {
        self.inner.put_file(text_in(name)?, bytes)?;
        Ok(())
    }

    /// The words of the next run have these names too.
    pub fn name(&mut self, names: &[u8]) -> Result<(), NoMemory> {
        for byte in names {
            self.named.push(if *byte == b'\n' { b' ' } else { *byte })?;
        }
        self.named.push(b' ')?;
        Ok(())
    }

    /// The words of the next run have those of this file too.
    pub fn name_script(&mut self, script: &[u8]) -> Tried<()> {
        let text = self.inner.file(text_in(script)?).unwrap_or(&[]);
        for byte in text {
            self.named.push(if *byte == b'\n' { b' ' } else { *byte })?;
        }
        Ok(())
    }

    /// A run is over: each file is there again, and as long as it is.
    pub fn end(&mut self) {
        self.missing.clear();
        self.long.clear();
        self.named.clear();
    }

    /// Counts the name, where it is a strange one.
    fn look(&mut self, name: &str)
        ensures { self.new.inner ≡ self.old.inner }
    {
        if !is_among(name.as_bytes(), self.named.as_slice()) {
            self.strange = self.strange.saturating_add(1);
        }
    }
}

/// Whether it is one of these words.
fn is_among(name: &[u8], words: &[u8]) -> bool {
    let mut rest = words;
    for _ in 0..words.len() {
        let (word, behind) = cut(rest, b' ');
        if word == name {
            return true;
        }
        rest = behind;
    }
    false
}

impl Shelf for WatchedFiles {
    ghost held = { λ _. None };

    ghost faults = { λ s. s.inner.calls.faults };

    ghost wants = { λ s. s.inner.wants };

    ghost length_gives = { λ _ _ _ _. Unit {0} };

    fn length(&mut self, name: &str) -> Result<Option<u64>, OutsideErr> {
        self.look(name);
        if self.missing.as_slice() == name.as_bytes() {
            return Ok(None);
        }
        if self.long.as_slice() == name.as_bytes() {
            return Ok(Some(TOO_LONG));
        }
        self.inner.length(name)
    }

    fn read_at(&mut self, name: &str, at: u64, into: &mut [u8]) -> Result<usize, OutsideErr> {
        self.look(name);
        self.inner.read_at(name, at, into)
    }

    fn create(&mut self, name: &str) -> Result<(), OutsideErr> {
        self.look(name);
        self.inner.create(name)
    }

    fn append(&mut self, name: &str, piece: &[u8]) -> Result<(), OutsideErr> {
        self.look(name);
        self.inner.append(name, piece)
    }
}

/// A sink in memory. It isn't modelled.
#[derive(Drop)]
pub struct WatchedSink {
    pub inner: MemSink,
    /// How often something was put that isn't one line.
    pub torn: u64,
}

impl Sink for WatchedSink {
    ghost taken = { λ _. None };

    ghost faults = { λ s. s.inner.calls.faults };

    ghost wants = { λ s. s.inner.wants };

    fn put(&mut self, piece: &[u8]) -> Result<(), OutsideErr> {
        if place_of(piece, b'\n').saturating_add(1) != piece.len() {
            self.torn = self.torn.saturating_add(1);
        }
        self.inner.put(piece)
    }
}
