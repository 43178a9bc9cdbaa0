// The steps, and what is told of each.
use crate::edge::Edge;
use crate::making::{make, make_pipe};
use crate::plan::{Call, Fault, Wrong};
use crate::room::done;
use crate::seeing::see;
use crate::shelf_steps::{ask, tell_fault};
use vk_cases::{Tried, Unreplayed, number_at, text_in, word_at};
use vk_io::{OutsideErr, Sink};

/// A step, its word, and its path, where it has one.
#[derive(Clone, Copy)]
pub struct Step<'a> {
    pub word: &'a str,
    pub path: &'a str,
    pub text: &'a [u8],
}

/// Takes a step, and tells what came of it. A PATH is from the root to the trial's folder and on
/// where `@` stands before it, and else from the folder that the program runs in.
///
/// Beside the shelf:
/// - `folder PATH`, `file PATH TEXT`: a folder, or a file that everybody may read, is made.
/// - `link PATH TARGET`, `hard PATH FILE`: a link to the target, and a second name of the file.
/// - `large PATH LENGTH AT TEXT`: a file of zeros with the text at a place.
/// - `pipe PATH`: a link to a pipe that is open at both ends. `remove PATH`: it is taken away.
/// - `see PATH`, `mode PATH`: what the file holds, and who may use it.
/// - `note PATH`, `since PATH`: whether the file was written since it was noted.
///
/// On the shelf:
/// - `create PATH`, `append PATH TEXT`, `run PATH LENGTH`, `settle`: a run is a long piece.
/// - `length PATH`, `read PATH AT ROOM`, `whole PATH MOST`.
/// - `why PATH`: what went wrong last, and that it was with this file.
///
/// On the output: `put TEXT`; `taken`, what it took; `why-not`, what went wrong last.
///
/// Of the calls to the system:
/// - `wrong CALL FIRST LAST HOW`: from now on those calls of the kind go wrong, and no others.
/// - `met`: whether all of them were made.
pub fn take_step(edge: &mut Edge<'_>, text: &[u8], told: &mut Vec<u8>) -> Tried<()> {
    let word = text_in(word_at(text, 0)?)?;
    let path = edge.room.path(word_at(text, 1).unwrap_or(&[]))?;
    let path = path.as_str();
    let taken = take_at(edge, &Step { word, path, text }, told);
    taken
}

/// Takes the step, and tells what came of it.
fn take_at(edge: &mut Edge<'_>, step: &Step<'_>, told: &mut Vec<u8>) -> Tried<()> {
    match step.word {
        "pipe" => make_pipe(edge, step.path, told),
        "see" | "mode" | "note" | "since" => see(edge, step, told),
        "settle" => push_answer(told, edge.shelf.settle()),
        "why" => tell_fault(edge, step.path, told),
        "put" => put(&mut edge.sink, step.text, told),
        "taken" => done(edge.output.push_taken(told)),
        "why-not" => push(told, edge.sink.reason()),
        "wrong" => plan(edge, step.text, told),
        "met" => push(told, if edge.plan.is_met() { "yes" } else { "no" }),
        "create" | "append" | "run" | "length" | "read" | "whole" => {
            let alloc = edge.room.alloc;
            ask(alloc, &mut edge.shelf, step, told)
        }
        _ => make(edge.room, step, told),
    }
}

/// Has the output take the text of a step.
fn put<W: Sink>(sink: &mut W, step: &[u8], told: &mut Vec<u8>) -> Tried<()> {
    push_answer(told, sink.put(word_at(step, 1)?))
}

/// Has the calls go wrong that a step names.
fn plan(edge: &Edge<'_>, step: &[u8], told: &mut Vec<u8>) -> Tried<()> {
    let call = Call::of(text_in(word_at(step, 1)?)?)?;
    let first = number_at(step, 2, u64::MAX)?;
    let last = number_at(step, 3, u64::MAX)?;
    let wrong = Wrong::of(text_in(word_at(step, 4)?)?)?;
    edge.plan.set(Fault {
        call,
        first,
        last,
        wrong,
    });
    push(told, "planned")
}

/// Puts the text behind what is told.
pub fn push(told: &mut Vec<u8>, text: &str) -> Tried<()> {
    told.extend_from_slice(text.as_bytes())?;
    Ok(())
}

/// Puts behind it what came of a call that answers nothing.
pub fn push_answer(told: &mut Vec<u8>, answer: Result<(), OutsideErr>) -> Tried<()> {
    match answer {
        Ok(()) => push(told, "done"),
        Err(OutsideErr::Failed) => push(told, "fault"),
        Err(OutsideErr::NoMemory) => Err(Unreplayed::NoMemory),
    }
}

/// The digits of a byte.
const DIGITS: &[u8; 16] = b"0123456789abcdef";

/// Puts the bytes behind it, those that are no characters of a text as two digits behind `\`.
pub fn push_bytes(told: &mut Vec<u8>, bytes: &[u8]) -> Tried<()> {
    for byte in bytes {
        if byte.is_ascii_graphic() {
            told.push(*byte)?;
        } else {
            told.extend_from_slice(&[
                b'\\',
                DIGITS[(*byte / 16) as usize],
                DIGITS[(*byte % 16) as usize],
            ])?;
        }
    }
    Ok(())
}
