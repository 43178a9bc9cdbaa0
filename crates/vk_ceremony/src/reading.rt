//! A script, line by line.

ghost use Rattle.std.specs.Prelude.{◌≡◌, ◌≤◌, ◌+◌, ◌^◌, ℕ, List, Ok, IfOk, IfSome};
ghost use Rattle.vk_lines.specs.Common.{Files, Gives, IsNext, KeepsFile, LinesValue, OnlyReads, Rest, rest_of, text_at};
ghost use Rattle.vk_effect.specs.Reading.{said_of_unread};
ghost use Rattle.vk_ceremony.specs.Scripts.{over_at, script_begun};
ghost use Rattle.vk_ceremony.specs.Turns.{IsWords, Stands, over_by};

use std::alloc::Global;
use vk_effect::{Unread, begin_named, named_value};
use vk_io::{OutsideErr, Shelf};
use vk_lines::{Lines, Step};
use vk_residue::NoMemory;
use vk_words::words_of_line;

/// What stands next in a script behind its first line.
#[derive(Drop)]
pub enum Line {
    /// The words of a line, which was taken.
    Words(Vec<String>),
    /// The line `end`, which was taken.
    End,
    /// No line, or one that isn't UTF-8. This is its number.
    Malformed(u64),
}

/// Begins the script of that name, and reads its first line.
#[tactic(auto, unfolding(crate::specs::Scripts::script_begun))]
pub fn begin_script<S: Shelf>(alloc: Global, shelf: &mut S, script: &str) -> Result<Lines, Unread>
    ensures modelled { IfSome (S.held shelf.old)
        (λ files. Gives said_of_unread (λ lines. rest_of lines files) result
        (script_begun files script.now)) }
    ensures name { IfOk result (λ lines. lines.name ≡ script.now) }
    ensures shelf { OnlyReads S.held S.Shelf.faults Unread.Failed result shelf.old shelf.new }
{
    let mut lines = begin_named(alloc, shelf, script)?;
    let heading = lines.read_fixed(shelf, b"vickrey-script 1");
    named_value(alloc, script, heading)?;
    Ok(lines)
}

/// Takes the next line.
pub fn read_line<S: Shelf>(
    alloc: Global,
    shelf: &mut S,
    lines: &mut Lines,
) -> Result<Line, OutsideErr>
    ensures modelled { IfSome (S.held shelf.old) (λ files. IfOk result (λ line.
        (script : List ℕ) → Stands script line (rest_of lines.old files)
        (rest_of lines.new files))) }
    ensures file { KeepsFile lines.old lines.new }
    ensures taken { IfOk result
        (λ line. IsWords line → (lines.new.taken ≡ lines.old.taken + 1)
        × (lines.new.taken ≤ 2 ^ 30)) }
    ensures shelf { OnlyReads S.held S.Shelf.faults OutsideErr.Failed result shelf.old shelf.new }
{
    let before = lines.number();
    let step = lines.next_line(shelf)?;
    let number = lines.number();
    let line = line_of(alloc, step, before, lines.text())?;
    Ok(line)
}

/// What was taken after so many lines.
fn line_of(alloc: Global, step: Step, before: u64, text: &[u8]) -> Result<Line, NoMemory>
    requires { before ≤ 2 ^ 30 }
    ensures modelled { IfOk result
        (λ line. (script : List ℕ) (files : Files) (old new : LinesValue) → before ≡ old.taken
        → text.now ≡ new.text
        → IsNext step old new files → Stands script line (rest_of old files) (rest_of new files)) }
    ensures taken { IfOk result (λ line. IsWords line → step ≡ Step.Text) }
{
    match step {
        Step::Text => {
            let line = text_line(alloc, before + 1, text)?;
            Ok(line)
        }
        Step::End | Step::Long | Step::Cut => Ok(Line::Malformed(before + 1)),
    }
}

/// What stands next, by the line of that number.
fn text_line(alloc: Global, number: u64, text: &[u8]) -> Result<Line, NoMemory>
    ensures { IfOk result (λ line. (script : List ℕ) (rest behind : Rest)
        → text_at rest ≡ Ok (text.now, behind) → number ≡ behind.taken
        → Stands script line rest behind) }
{
    if text == b"end".as_slice() {
        return Ok(Line::End);
    }
    match words_of_line(alloc, text)? {
        Some(words) => Ok(Line::Words(words)),
        None => Ok(Line::Malformed(number)),
    }
}

/// The number of the line that stands behind `end`, where a byte does.
pub fn behind_end<S: Shelf>(shelf: &mut S, lines: &mut Lines) -> Result<Option<u64>, OutsideErr>
    ensures modelled { IfSome (S.held shelf.old)
        (λ files. IfOk result (λ fault. fault ≡ over_at (rest_of lines.old files))) }
    ensures file { KeepsFile lines.old lines.new }
    ensures shelf { OnlyReads S.held S.Shelf.faults OutsideErr.Failed result shelf.old shelf.new }
{
    let number = lines.number();
    let step = lines.next_line(shelf)?;
    let fault = over_by(step, number);
    Ok(fault)
}

/// The same, by what stands next after so many lines.
fn over_by(step: Step, number: u64) -> Option<u64>
    requires { number ≤ 2 ^ 30 }
    ensures { result ≡ over_by step number }
{
    match step {
        Step::End => None,
        Step::Text | Step::Long | Step::Cut => Some(number + 1),
    }
}
