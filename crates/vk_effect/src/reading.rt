//! The files that a command is given by name.

ghost use Rattle.std.specs.Prelude.{◌≡◌, ℕ, Err, IfOk, IfSome, Ok, Result};
ghost use Rattle.std.specs.FinMap as map;
ghost use Rattle.vk_lines.specs.Common.{Causes, Files, Gives, GivesReading, IsBefore, OnlyReads, Rest, Starts, rest_of};
ghost use Rattle.vk_effect.specs.Effects.{SaidValue};
ghost use Rattle.vk_effect.specs.Reading.{begun_in, said_of_unread, said_or_stopped, value_in};

use crate::named::{missing, say_malformed, too_long};
use crate::said::Said;
use std::alloc::Global;
use vk_io::{OutsideErr, Shelf};
use vk_lines::{Lines, ReadErr, StartErr};
use vk_residue::NoMemory;

/// Why a file was not read.
#[derive(Drop)]
pub enum Unread {
    /// It isn't held, is too long or isn't of its form, and this is said of it.
    Said(Said),
    /// The outside failed. The shelf's count of faults rose in this call.
    Failed,
    /// Want of memory.
    NoMemory,
}

impl From<NoMemory> for Unread {
    ghost use Rattle.std.specs.Prelude.{◌≡◌};
    ghost use Rattle.vk_effect.specs.declared.reading.Unread.TheVariants.{NoMemory as OutOfMemory};

    ghost from_gives = { λ _ e. e ≡ OutOfMemory };

    fn from(_refused: NoMemory) -> Unread {
        Unread::NoMemory
    }
}

impl Unread {
    /// What the command then says, or why it is stopped.
    pub fn said_or_stopped(self) -> Result<Said, OutsideErr>
        ensures { result ≡ said_or_stopped self }
    {
        match self {
            Unread::Said(said) => Ok(said),
            Unread::Failed => Err(OutsideErr::Failed),
            Unread::NoMemory => Err(OutsideErr::NoMemory),
        }
    }
}

/// Begins to read the named file.
pub fn begin_named<S: Shelf>(alloc: Global, shelf: &mut S, name: &str) -> Result<Lines, Unread>
    ensures modelled { IfSome (S.held shelf.old) (λ files.
        Gives said_of_unread (λ lines. rest_of lines files) result
        (begun_in name.now (map.get files name.now))) }
    ensures before { IfOk result (IsBefore name.now) }
    ensures shelf { OnlyReads S.held S.Shelf.faults Unread.Failed result shelf.old shelf.new }
{
    let started = Lines::start(alloc, shelf, name);
    let lines = lines_or_unread(alloc, name, started);
    lines
}

/// The named file from its first line on, or why it was not begun.
fn lines_or_unread(
    alloc: Global,
    name: &str,
    started: Result<Lines, StartErr>,
) -> Result<Lines, Unread>
    requires { IfOk started (IsBefore name.now) }
    ensures modelled { (files : Files) → Starts files name.now started
        → Gives said_of_unread (λ lines. rest_of lines files) result
        (begun_in name.now (map.get files name.now)) }
    ensures before { IfOk result (IsBefore name.now) }
    ensures causes { (before after : ℕ) → Causes StartErr.Failed started before after
        → Causes Unread.Failed result before after }
{
    match started {
        Ok(lines) => Ok(lines),
        Err(StartErr::Missing) => {
            let said = missing(alloc, name)?;
            Err(Unread::Said(said))
        }
        Err(StartErr::TooLong) => {
            let said = too_long(alloc, name)?;
            Err(Unread::Said(said))
        }
        Err(StartErr::Failed) => Err(Unread::Failed),
        Err(StartErr::NoMemory) => Err(Unread::NoMemory),
    }
}

/// What the named file was read as, or why it was not read.
pub fn named_value<X>(alloc: Global, name: &str, read: Result<X, ReadErr>) -> Result<X, Unread>
    ensures modelled { (rest : Rest) (expected : Result (X × Rest) ℕ)
        → GivesReading (λ x. x) read rest expected
        → Gives said_of_unread (λ x. x) result (value_in name.now expected) }
    ensures same { IfOk result (λ value. read ≡ Ok value) }
    ensures causes { (before after : ℕ) → Causes ReadErr.Failed read before after
        → Causes Unread.Failed result before after }
{
    match read {
        Ok(value) => Ok(value),
        Err(ReadErr::Malformed { line }) => {
            let said = say_malformed(alloc, name, line)?;
            Err(Unread::Said(said))
        }
        Err(ReadErr::Failed) => Err(Unread::Failed),
        Err(ReadErr::NoMemory) => Err(Unread::NoMemory),
    }
}
