ghost use Rattle.std.specs.Prelude.{◌≡◌, ℕ, ◌+◌, ◌≤◌, ◌++◌, [], ◌∷◌, length, drop, Option, Some, Ok, Err, option_map, option_copied, IfSome, IfOk, OnOk, OnErr, MatchResult, if◌then◌else◌};
ghost use Rattle.std.specs.FinMap as map;
ghost use Rattle.vk_io.specs.Faults.{Causes, CountsCall, fails_next, fails_too};
ghost use Rattle.vk_io.specs.Files.{bytes_of, part_of, Modelled, Creates, Appends};
ghost use Rattle.vk_io.specs.declared.errors.OutsideErr.TheVariants.{Failed};

use crate::calls::CallCount;
use crate::errors::{OutsideErr, count_want};
use crate::named::{NamedFile, append_to, bytes_at, length_in, read_in, write_over};
use crate::shelf::Shelf;
use std::alloc::Global;
use std::marker::Model;
use vk_residue::NoMemory;

/// A shelf in memory, which is modelled. The calls of the trait are counted from 1 over its
/// life, and those that [`MemShelf::fail_at`] named fail and change no file.
#[derive(Drop)]
pub struct MemShelf {
    files: Vec<NamedFile>,
    calls: CallCount,
    wants: u64,
    alloc: Global,
}

impl Model for MemShelf {
    ghost use Rattle.vk_io.specs.Memory.{MemoryFiles, files_code};

    ghost Value = { MemoryFiles };

    ghost coded = { files_code };

    ghost use Rattle.vk_io.specs.Named.{files_in};

    ghost view = { λ s. record {
      files = files_in s.files.items;
      calls = s.calls;
      wants = s.wants;
    } };
}

impl MemShelf {
    /// No files, and no call that is to fail. What is held later is made with this allocator.
    #[tactic(auto, unfolding(crate::specs::Named::files_in))]
    pub fn new(alloc: Global) -> MemShelf
        ensures { result ≡ record {
          files = map.empty;
          calls = record { made = 0; failing = []; faults = 0 };
          wants = 0;
        } }
    {
        MemShelf {
            files: Vec::new(alloc),
            calls: CallCount::new(alloc),
            wants: 0,
            alloc,
        }
    }

    /// Makes the named file hold these bytes. It is no call of the trait, and is not counted. Errs
    /// for want of memory alone, and then nothing changed.
    pub fn put_file(&mut self, name: &str, bytes: &[u8]) -> Result<(), NoMemory>
        ensures put { OnOk result
            (self.new ≡ record self.old { files = map.insert self.old.files name.now bytes.now }) }
        ensures refused { OnErr result (self.new ≡ self.old) }
    {
        let bytes = Vec::from_slice(self.alloc, bytes)?;
        write_over(self.alloc, &mut self.files, name, bytes)?;
        Ok(())
    }

    /// What the named file holds. None where the name isn't held.
    pub fn file(&self, name: &str) -> Option<&[u8]>
        ensures { option_copied result ≡ map.get self.now.files name.now }
    {
        bytes_at(&self.files, name)
    }

    /// Has the call of that number fail, counted from 1 over the shelf's life. Errs for want of
    /// memory alone, and then nothing changed.
    pub fn fail_at(&mut self, call: u64) -> Result<(), NoMemory>
        ensures named { OnOk result
            (self.new ≡ record self.old { calls = fails_too call self.old.calls }) }
        ensures refused { OnErr result (self.new ≡ self.old) }
    {
        self.calls.name(call)
    }
}

impl Shelf for MemShelf {
    ghost use Rattle.std.specs.Prelude.{Some};

    ghost held = { λ s. Some s.files };

    ghost faults = { λ s. s.calls.faults };

    ghost wants = { λ s. s.wants };

    ghost length_gives = { λ _ _ _ _. Unit {0} };

    fn length(&mut self, name: &str) -> Result<Option<u64>, OutsideErr>
        ensures exact { result ≡ (if fails_next self.old.calls then Err Failed
            else Ok (option_map length (map.get self.old.files name.now))) }
        ensures files { self.new.files ≡ self.old.files }
        ensures counted { CountsCall result self.old.calls self.new.calls }
        ensures wants { Causes OutsideErr.NoMemory result self.old.wants self.new.wants }
    {
        self.calls.begin()?;
        Ok(length_in(&self.files, name))
    }

    fn read_at(&mut self, name: &str, at: u64, into: &mut [u8]) -> Result<usize, OutsideErr>
        ensures exact { result ≡ (if fails_next self.old.calls then Err Failed
            else Ok (length (part_of (bytes_of self.old.files name.now) at (length into.old)))) }
        ensures read { IfOk result (λ n. into.new
            ≡ part_of (bytes_of self.old.files name.now) at (length into.old) ++ drop n into.old) }
        ensures unread { OnErr result (into.new ≡ into.old) }
        ensures files { self.new.files ≡ self.old.files }
        ensures counted { CountsCall result self.old.calls self.new.calls }
        ensures wants { Causes OutsideErr.NoMemory result self.old.wants self.new.wants }
    {
        self.calls.begin()?;
        Ok(read_in(&self.files, name, at, into))
    }

    fn create(&mut self, name: &str) -> Result<(), OutsideErr>
        ensures created { OnOk result (self.new.files ≡ map.insert self.old.files name.now []) }
        ensures refused { OnErr result (self.new.files ≡ self.old.files) }
        ensures counted { CountsCall result self.old.calls self.new.calls }
        ensures wants { Causes OutsideErr.NoMemory result self.old.wants self.new.wants }
    {
        self.calls.begin()?;
        let answer = write_over(self.alloc, &mut self.files, name, Vec::new(self.alloc));
        count_want(answer, &mut self.wants)
    }

    fn append(&mut self, name: &str, piece: &[u8]) -> Result<(), OutsideErr>
        ensures appended { OnOk result
            (self.new.files ≡ map.insert self.old.files name.now
            (bytes_of self.old.files name.now ++ piece.now)) }
        ensures refused { OnErr result (self.new.files ≡ self.old.files) }
        ensures counted { CountsCall result self.old.calls self.new.calls }
        ensures wants { Causes OutsideErr.NoMemory result self.old.wants self.new.wants }
    {
        self.calls.begin()?;
        let answer = append_to(self.alloc, &mut self.files, name, piece);
        count_want(answer, &mut self.wants)
    }
}
