// What stands in for the outside: a house in memory, files in memory, and standard error.
ghost use Rattle.std.specs.Prelude.{◌≡◌};
ghost use Rattle.vk_io.specs.Faults.{Causes};

use std::alloc::Global;
use std::cell::{Cell, RefCell};
use std::fmt::{Display, Write};
use std::io::{self, ErrorKind};
use vk_files::NamedFault;
use vk_io::{MemShelf, OutsideErr, Shelf};
use vk_keeper::MemKeeper;
use vk_program::{HousePlace, Settle, Unopened};

/// The same answer, which is counted where it is a fault.
fn counted<T>(faults: &mut u64, answer: Result<T, OutsideErr>) -> Result<T, OutsideErr>
    ensures same { result ≡ answer }
    ensures causes { Causes OutsideErr.Failed result faults.old faults.new }
{
    if matches!(answer, Err(OutsideErr::Failed)) {
        *faults = faults.saturating_add(1);
    }
    answer
}

/// A house in memory, which counts how often it is opened, may be refused then, and may fail as it
/// is closed. What is kept in it is modelled where it isn't refused.
#[derive(Drop)]
pub struct MemHouse<'a> {
    pub alloc: Global,
    pub kept: Option<MemKeeper>,
    pub refusal: Option<Unopened>,
    pub is_made: bool,
    pub closing_fails: bool,
    pub opened: &'a Cell<u64>,
    pub faults: u64,
}

impl HousePlace for MemHouse<'_> {
    ghost use Rattle.std.specs.Prelude.{◌≡◌, false, None, Some};
    ghost use Rattle.std.specs.FinMap.{empty};
    ghost use Rattle.vk_program.specs.Houses.{told_by};

    type Kept = MemKeeper;

    ghost ledger = { λ house. told_by (λ _. None)
        (told_by (λ keeper. Some keeper.ledger) (Some empty) house.kept) house.refusal };

    ghost faults = { λ house. house.faults };

    ghost unmade = { λ house. (house.is_made ≡ false) × (house.kept ≡ None) };

    fn is_made(&mut self) -> Result<bool, Unopened> {
        Ok(self.is_made || self.kept.is_some())
    }

    fn open(&mut self) -> Result<MemKeeper, Unopened> {
        self.opened.set(self.opened.get().saturating_add(1));
        if let Some(refusal) = self.refusal {
            let _ = counted::<()>(&mut self.faults, Err(refusal.outside()));
            return Err(refusal);
        }
        match self.kept.take() {
            Some(keeper) => Ok(keeper),
            None => Ok(MemKeeper::new(self.alloc)),
        }
    }

    fn close(&mut self, kept: MemKeeper) -> Result<(), OutsideErr> {
        self.kept = Some(kept);
        self.refusal = None;
        if self.closing_fails {
            return counted(&mut self.faults, Err(OutsideErr::Failed));
        }
        Ok(())
    }

    fn count_fault(&mut self) {
        self.faults = self.faults.saturating_add(1);
    }
}

/// Standard error, as the text that was said.
#[derive(Drop)]
pub struct Errors<'a> {
    pub said: &'a RefCell<String>,
}

impl Eprint for Errors<'_> {
    fn eprint<D: Display + Drop>(&self, value: D) -> io::Result<()> {
        match self.said.try_borrow_mut() {
            Ok(mut said) => write!(said, "{value}").map_err(|_| io::Error::from(ErrorKind::Other)),
            Err(_) => Err(io::Error::from(ErrorKind::Other)),
        }
    }

    fn eprintln<D: Display + Drop>(&self, value: D) -> io::Result<()> {
        self.eprint(value)?;
        self.eprint("\n")
    }
}

/// Files in memory, which may fail as they are settled. They aren't modelled.
#[derive(Drop)]
pub struct MemFiles {
    pub inner: MemShelf,
    pub settling_fails: bool,
    faults: u64,
}

impl MemFiles {
    /// No files yet, and none fails.
    pub fn new(alloc: Global) -> MemFiles {
        MemFiles {
            inner: MemShelf::new(alloc),
            settling_fails: false,
            faults: 0,
        }
    }
}

impl Shelf for MemFiles {
    ghost use Rattle.std.specs.Prelude.{None};

    ghost held = { λ _. None };

    ghost faults = { λ s. s.faults };

    ghost wants = { λ s. s.inner.wants };

    ghost length_gives = { λ _ _ _ _. Unit {0} };

    fn length(&mut self, name: &str) -> Result<Option<u64>, OutsideErr> {
        let length = self.inner.length(name);
        counted(&mut self.faults, length)
    }

    fn read_at(&mut self, name: &str, at: u64, into: &mut [u8]) -> Result<usize, OutsideErr> {
        let read = self.inner.read_at(name, at, into);
        counted(&mut self.faults, read)
    }

    fn create(&mut self, name: &str) -> Result<(), OutsideErr> {
        let created = self.inner.create(name);
        counted(&mut self.faults, created)
    }

    fn append(&mut self, name: &str, piece: &[u8]) -> Result<(), OutsideErr> {
        let appended = self.inner.append(name, piece);
        counted(&mut self.faults, appended)
    }
}

impl Settle for MemFiles {
    fn settle(&mut self) -> Result<(), OutsideErr> {
        if self.settling_fails {
            return counted(&mut self.faults, Err(OutsideErr::Failed));
        }
        Ok(())
    }

    fn last_fault(&self) -> Option<NamedFault<'_>> {
        if self.faults == 0 {
            return None;
        }
        Some(NamedFault {
            name: b"seal".as_slice(),
            reason: "the disk is full",
        })
    }
}
