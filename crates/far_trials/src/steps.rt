// The steps, and what is told of each.
use crate::changes::put_file;
use crate::stage::Stage;
use std::alloc::Global;
use vk_cases::{Tried, Unreplayed, behind, number_at, read_cases, text_of, word_at};
use vk_dice::{ListWords, draw_residue};
use vk_io::{MemSink, Shelf};
use vk_lines::{end_line, push_decimal, push_line};

/// Takes a step, and tells what came of it. A line that begins with another word is a comment.
///
/// - `take NAME`: the file of that name in the folder, in memory.
/// - `forget`: the house knows nothing again.
/// - `do WORD ..`: a command that is done.
/// - `line NAME NUMBER TEXT`: this text in place of that line, until the next run is over.
/// - `too-long`: every file has a byte more than it may have, until the next run is over.
/// - `run WORD ..`: a command, its status, and what it printed.
/// - `read NAME PLACE LENGTH`: whether the last command read that file to less than PLACE, and it
///   has more than LENGTH bytes.
/// - `end NAME`: whether the last command read that file to its end.
/// - `draw NUMBER`: the last of so many residues that are drawn from a list of the words from 1 on.
pub fn step_text<S: Shelf>(
    alloc: Global,
    stage: &mut Stage,
    folder: &mut S,
    step: &[u8],
) -> Tried<Vec<u8>> {
    let word = text_of(alloc, word_at(step, 0)?)?;
    let rest = behind(step, word.len().saturating_add(1));
    match word.as_str() {
        "take" => take(alloc, stage, folder, rest),
        "forget" => {
            stage.forget();
            Ok(Vec::new(alloc))
        }
        "do" => done(alloc, stage, rest),
        "line" => change(alloc, stage, step),
        "too-long" => lengthen(alloc, stage, step),
        "run" => said(alloc, stage, rest),
        "read" => bounded(alloc, stage, step),
        "end" => ended(alloc, stage, rest),
        "draw" => drawn(alloc, step),
        _ => Ok(Vec::new(alloc)),
    }
}

/// Has the named file of the folder in memory.
fn take<S: Shelf>(alloc: Global, stage: &mut Stage, folder: &mut S, name: &[u8]) -> Tried<Vec<u8>> {
    let name = text_of(alloc, name)?;
    let bytes = read_cases(alloc, folder, name.as_str())?;
    put_file(&mut stage.shelf, name.as_str(), bytes.as_slice())?;
    Ok(Vec::new(alloc))
}

/// Runs a command, and tells of it where it wasn't done.
fn done(alloc: Global, stage: &mut Stage, line: &[u8]) -> Tried<Vec<u8>> {
    let mut out = MemSink::new(alloc);
    let status = stage.run(line, &mut out)?;
    if status == 0 {
        return Ok(Vec::new(alloc));
    }
    run_text(alloc, line, status, out.bytes())
}

/// Runs a command, and tells of it.
fn said(alloc: Global, stage: &mut Stage, line: &[u8]) -> Tried<Vec<u8>> {
    let mut out = MemSink::new(alloc);
    let status = stage.run(line, &mut out)?;
    run_text(alloc, line, status, out.bytes())
}

/// The words of a command, its status, and what it printed.
fn run_text(alloc: Global, line: &[u8], status: u8, printed: &[u8]) -> Tried<Vec<u8>> {
    let mut text = Vec::from_slice(alloc, line)?;
    text.extend_from_slice(b" | ")?;
    push_decimal(&mut text, u64::from(status))?;
    end_line(&mut text)?;
    text.extend_from_slice(printed)?;
    Ok(text)
}

/// How many bytes of a step `line` stand before its text, beside the name and the number.
const LINE_AND_SPACES: usize = 7;

/// Changes a line, and tells which.
fn change(alloc: Global, stage: &mut Stage, step: &[u8]) -> Tried<Vec<u8>> {
    let name = text_of(alloc, word_at(step, 1)?)?;
    let number = number_at(step, 2, u64::MAX)?;
    let named = name.len().saturating_add(word_at(step, 2)?.len());
    let text = behind(step, named.saturating_add(LINE_AND_SPACES));
    stage.change(name, number, text)?;
    let mut told = Vec::new(alloc);
    push_line(&mut told, step)?;
    Ok(told)
}

/// Has every file too long, and tells so.
fn lengthen(alloc: Global, stage: &mut Stage, step: &[u8]) -> Tried<Vec<u8>> {
    stage.shelf.have_too_long(true);
    let mut told = Vec::new(alloc);
    push_line(&mut told, step)?;
    Ok(told)
}

/// Tells whether the last command read the named file within the bounds of the step.
fn bounded(alloc: Global, stage: &Stage, step: &[u8]) -> Tried<Vec<u8>> {
    let name = text_of(alloc, word_at(step, 1)?)?;
    let place = number_at(step, 2, u64::MAX)?;
    let least = number_at(step, 3, u64::MAX)?;
    if stage.shelf.reach(name.as_str()) < place && least < stage.length(name.as_str()) {
        let text = format!(in alloc; "{name} read below {place} of more than {least}\n")?;
        return Ok(text.into_bytes());
    }
    reach_text(alloc, stage, name.as_str())
}

/// Tells whether the last command read the named file to its end.
fn ended(alloc: Global, stage: &Stage, name: &[u8]) -> Tried<Vec<u8>> {
    let name = text_of(alloc, name)?;
    if stage.shelf.reach(name.as_str()) == stage.length(name.as_str()) {
        let text = format!(in alloc; "{name} read to its end\n")?;
        return Ok(text.into_bytes());
    }
    reach_text(alloc, stage, name.as_str())
}

/// How far the last command read the named file.
fn reach_text(alloc: Global, stage: &Stage, name: &str) -> Tried<Vec<u8>> {
    let reach = stage.shelf.reach(name);
    let length = stage.length(name);
    let text = format!(in alloc; "{name} read to {reach} of {length}\n")?;
    Ok(text.into_bytes())
}

/// Tells the last of so many residues that are drawn from a list of the words from 1 on.
fn drawn(alloc: Global, step: &[u8]) -> Tried<Vec<u8>> {
    let number = number_at(step, 1, u64::MAX)?;
    let mut list = Vec::new(alloc);
    for word in 1..=number {
        list.push(word)?;
    }
    let mut words = ListWords::of(alloc, list.as_slice())?;
    let mut last = 0;
    for _ in 0..number {
        last = draw_residue(&mut words)
            .map_err(|_dry| Unreplayed::NoCase)?
            .get();
    }
    let text = format!(in alloc; "residue {number} of a list is {last}\n")?;
    Ok(text.into_bytes())
}
