// Steps on the shelf.
use crate::edge::Edge;
use crate::steps::{Step, push, push_answer, push_bytes};
use std::alloc::Global;
use vk_cases::{Tried, Unreplayed, number_at, word_at};
use vk_io::{Content, Shelf, read_whole};
use vk_lines::push_decimal;

/// A run of bytes counts from 0 on, and begins again at this number.
const TURN: u64 = 251;

/// The most bytes of which each is told.
const MOST_TOLD: u64 = 16;

/// Has the shelf do what a step says of the file at its path.
pub fn ask<S: Shelf>(
    alloc: Global,
    shelf: &mut S,
    step: &Step<'_>,
    told: &mut Vec<u8>,
) -> Tried<()> {
    match step.word {
        "create" => push_answer(told, shelf.create(step.path)),
        "append" => push_answer(told, shelf.append(step.path, word_at(step.text, 2)?)),
        "run" => {
            let run = run_of(alloc, number_at(step.text, 2, u64::MAX)?)?;
            push_answer(told, shelf.append(step.path, run.as_slice()))
        }
        "length" => tell_length(shelf, step.path, told),
        "read" => {
            let mut into = dots(alloc, number_at(step.text, 3, 1 << 20)?)?;
            tell_part(shelf, step, into.as_mut_slice(), told)
        }
        "whole" => tell_whole(alloc, shelf, step, told),
        _ => Err(Unreplayed::NoCase),
    }
}

/// So many bytes, of which that of each place is the place modulo 251.
fn run_of(alloc: Global, length: u64) -> Tried<Vec<u8>> {
    let mut run = Vec::new(alloc);
    for place in 0..length {
        run.push((place % TURN) as u8)?;
    }
    Ok(run)
}

/// So many dots, for bytes that are read over them.
fn dots(alloc: Global, room: u64) -> Tried<Vec<u8>> {
    let dots = vec![in alloc; b'.'; room as usize]?;
    Ok(dots)
}

/// The length that the shelf tells.
fn tell_length<S: Shelf>(shelf: &mut S, path: &str, told: &mut Vec<u8>) -> Tried<()> {
    match shelf.length(path) {
        Ok(Some(length)) => Ok(push_decimal(told, length)?),
        Ok(None) => push(told, "none"),
        Err(refusal) => push_answer(told, Err(refusal)),
    }
}

/// Reads from a place on over these bytes. Tells how many were read, and all that stands there
/// then; of many bytes, whether they are a run.
fn tell_part<S: Shelf>(
    shelf: &mut S,
    step: &Step<'_>,
    into: &mut [u8],
    told: &mut Vec<u8>,
) -> Tried<()> {
    let at = number_at(step.text, 2, u64::MAX)?;
    match shelf.read_at(step.path, at, into) {
        Ok(count) => tell_bytes(told, count, into),
        Err(refusal) => push_answer(told, Err(refusal)),
    }
}

fn tell_bytes(told: &mut Vec<u8>, count: usize, bytes: &[u8]) -> Tried<()> {
    push_decimal(told, count as u64)?;
    push(told, " ")?;
    if bytes.len() as u64 <= MOST_TOLD {
        return push_bytes(told, bytes);
    }
    match bytes.get(..count) {
        Some(read) => tell_run(told, read),
        None => Err(Unreplayed::NoCase),
    }
}

/// Whether each byte is one more than the one before it, modulo 251, and the first of them.
fn tell_run(told: &mut Vec<u8>, bytes: &[u8]) -> Tried<()> {
    let first = u64::from(*bytes.first().ok_or(Unreplayed::NoCase)?);
    let mut next = first;
    for byte in bytes {
        if u64::from(*byte) != next {
            return push(told, "other bytes");
        }
        next = next.saturating_add(1) % TURN;
    }
    push(told, "from ")?;
    Ok(push_decimal(told, first)?)
}

/// The whole file, where it is no longer than a step says.
fn tell_whole<S: Shelf>(
    alloc: Global,
    shelf: &mut S,
    step: &Step<'_>,
    told: &mut Vec<u8>,
) -> Tried<()> {
    match read_whole(alloc, shelf, step.path, number_at(step.text, 2, u64::MAX)?) {
        Ok(Content::Held(bytes)) => push_bytes(told, bytes.as_slice()),
        Ok(Content::Missing) => push(told, "missing"),
        Ok(Content::TooLong) => push(told, "too long"),
        Err(refusal) => push_answer(told, Err(refusal)),
    }
}

/// What went wrong last, where it was with the file at that path.
pub fn tell_fault(edge: &Edge<'_>, path: &str, told: &mut Vec<u8>) -> Tried<()> {
    match edge.shelf.last_fault() {
        None => push(told, "nothing"),
        Some(fault) if fault.name == path.as_bytes() => push(told, fault.reason),
        Some(_) => push(told, "another file"),
    }
}
