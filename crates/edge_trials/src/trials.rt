// The trials, each in a folder with nothing in it.
use crate::edge::Edge;
use crate::faulty::Faulty;
use crate::output::Output;
use crate::plan::{Call, Fault, Plan, Wrong};
use crate::room::Room;
use crate::steps::{push, take_step};
use std::io::ErrorKind;
use vk_cases::{Tried, Unreplayed, cut, text_in, word_at};
use vk_io::Sink;
use vk_lines::{end_line, push_decimal};

/// How many calls of a kind fail in turn, at most.
const MOST_CALLS: u64 = 100;

/// Tries all, and tells what came of each step. A trial begins with a line `# STORE`, and its store
/// is at that path. Where the line is `# STORE CALL`, its steps are taken again and again: each
/// call of the kind fails in turn, and the step is told that ends with a fault.
pub fn try_all<W: Sink>(room: &Room<'_>, trials: &[u8], out: &mut W) -> Tried<()> {
    let mut rest = trials;
    for _ in 0..trials.len() {
        let (trial, behind) = cut(rest, b'#');
        rest = behind;
        if !trial.is_empty() {
            try_one(room, trial, out)?;
        }
    }
    Ok(())
}

/// Tries the steps behind the first line, and tells what came of them, also where it stopped before
/// the end.
fn try_one<W: Sink>(room: &Room<'_>, trial: &[u8], out: &mut W) -> Tried<()> {
    let mut told = Vec::new(room.alloc);
    let tried = try_steps(room, trial, &mut told);
    let put = out.put(told.as_slice());
    match put {
        Ok(()) => tried,
        Err(refusal) => Err(Unreplayed::from(refusal)),
    }
}

/// Tries the steps behind the first line, as that says.
fn try_steps(room: &Room<'_>, trial: &[u8], told: &mut Vec<u8>) -> Tried<()> {
    let (head, steps) = cut(trial, b'\n');
    let plan = Plan::new();
    let store = room.path(word_at(head, 1)?)?;
    let tried = match word_at(head, 2) {
        Ok(word) => try_each(room, store.as_str(), &plan, word, steps, told),
        Err(_) => on_edge(room, store.as_str(), &plan, false, steps, told),
    };
    tried
}

/// Takes the steps where the first call of the kind fails, then where the second does, and so on,
/// as long as there is such a call.
fn try_each(
    room: &Room<'_>,
    store: &str,
    plan: &Plan,
    word: &[u8],
    steps: &[u8],
    told: &mut Vec<u8>,
) -> Tried<()> {
    let call = Call::of(text_in(word)?)?;
    for at in 1..=MOST_CALLS {
        plan.set(Fault {
            call,
            first: at,
            last: at,
            wrong: Wrong::Fails(ErrorKind::Other),
        });
        push_call(told, word, at)?;
        on_edge(room, store, plan, true, steps, told)?;
        if !plan.is_met() {
            return Ok(());
        }
    }
    Err(Unreplayed::NoCase)
}

/// Puts behind the text which call fails.
fn push_call(told: &mut Vec<u8>, word: &[u8], at: u64) -> Tried<()> {
    told.extend_from_slice(word)?;
    push(told, " ")?;
    push_decimal(told, at)?;
    push(told, ": ")
}

/// Takes the steps over a new shelf, in a new folder: all of them, or up to the first fault.
fn on_edge(
    room: &Room<'_>,
    store: &str,
    plan: &Plan,
    until_fault: bool,
    steps: &[u8],
    told: &mut Vec<u8>,
) -> Tried<()> {
    room.make()?;
    let system = Faulty {
        rt: &*room.rt,
        plan: &*plan,
    };
    let output = Output::new(room.alloc, &*plan);
    let mut edge = Edge::new(&*room, &system, &output, &*store);
    let taken = take_steps(&mut edge, until_fault, steps, told);
    taken
}

/// Takes all steps, and tells what came of each; or those up to the first that ends with a fault,
/// of which alone is told.
fn take_steps(
    edge: &mut Edge<'_>,
    until_fault: bool,
    steps: &[u8],
    told: &mut Vec<u8>,
) -> Tried<()> {
    let mut rest = steps;
    for _ in 0..steps.len() {
        let (step, behind) = cut(rest, b'\n');
        rest = behind;
        if !step.is_empty() {
            let front = told.len();
            tell_step(edge, step, told)?;
            if until_fault {
                if told.as_slice().ends_with(b": fault\n") {
                    return Ok(());
                }
                told.truncate(front);
            }
        }
    }
    push(told, if until_fault { "no such call\n" } else { "" })
}

/// Takes a step, and tells what came of it. What is said for a reader alone is told as it is.
fn tell_step(edge: &mut Edge<'_>, step: &[u8], told: &mut Vec<u8>) -> Tried<()> {
    told.extend_from_slice(step)?;
    if !step.starts_with(b"- ") {
        push(told, ": ")?;
        take_step(edge, step, told)?;
    }
    end_line(told)?;
    Ok(())
}
