ghost use Rattle.std.specs.Prelude.{◌≡◌, OnOk, option_copied};
ghost use Rattle.std.specs.FinMap as map;

use crate::errors::OutsideErr;
use crate::mem_shelf::MemShelf;
use crate::shelf::Shelf;
use std::alloc::Global;
use std::marker::Model;
use vk_residue::NoMemory;

/// A shelf in memory of which no call fails, but for want of memory.
#[derive(Drop)]
pub struct SureShelf {
    inner: MemShelf,
}

impl Model for SureShelf {
    ghost use Rattle.std.specs.Prelude.{◌≡◌, []};
    ghost use Rattle.vk_io.specs.Memory.{MemoryFiles, files_code};

    ghost Value = { MemoryFiles };

    ghost coded = { files_code };

    ghost view = { λ s. s.inner };

    ghost invariant = { λ s. s.inner.calls.failing ≡ [] };
}

impl SureShelf {
    /// No files. What is held later is made with this allocator.
    pub fn new(alloc: Global) -> SureShelf
        ensures { result.files ≡ map.empty }
    {
        SureShelf {
            inner: MemShelf::new(alloc),
        }
    }

    /// Makes the named file hold these bytes. Errs for want of memory alone.
    pub fn put_file(&mut self, name: &str, bytes: &[u8]) -> Result<(), NoMemory>
        ensures { OnOk result (self.new.files ≡ map.insert self.old.files name.now bytes.now) }
    {
        self.inner.put_file(name, bytes)
    }

    /// What the named file holds. None where the name isn't held.
    pub fn file(&self, name: &str) -> Option<&[u8]>
        ensures { option_copied result ≡ map.get self.now.files name.now }
    {
        self.inner.file(name)
    }
}

impl Shelf for SureShelf {
    ghost use Rattle.std.specs.Prelude.{Some};

    ghost held = { λ s. Some s.files };

    ghost faults = { λ _. 0 };

    ghost wants = { λ s. s.wants };

    ghost length_gives = { λ _ _ _ _. Unit {0} };

    fn length(&mut self, name: &str) -> Result<Option<u64>, OutsideErr> {
        self.inner.length(name)
    }

    fn read_at(&mut self, name: &str, at: u64, into: &mut [u8]) -> Result<usize, OutsideErr> {
        self.inner.read_at(name, at, into)
    }

    fn create(&mut self, name: &str) -> Result<(), OutsideErr> {
        self.inner.create(name)
    }

    fn append(&mut self, name: &str, piece: &[u8]) -> Result<(), OutsideErr> {
        self.inner.append(name, piece)
    }
}
