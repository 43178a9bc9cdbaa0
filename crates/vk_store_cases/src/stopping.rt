// A command that is stopped at each call of the files, and what is found once the machine comes
// back.
use crate::commands::Task;
use crate::sessions::{change, make, said_of};
use crate::stores::{Image, Session};
use std::alloc::Global;
use vk_cases::{Tried, Unreplayed};

/// More calls than a command makes.
const MOST_CALLS: u64 = 500;

/// A command, the store that it is done over, what is answered, and what is found before it and
/// after it.
#[derive(Drop)]
struct Step<'a> {
    command: &'a [u8],
    image: &'a Image,
    said: Vec<u8>,
    before: Vec<u8>,
    after: Vec<u8>,
}

/// The case, and whether what was found is right after each stop.
pub fn stop_text(alloc: Global, case: &[u8]) -> Tried<Vec<u8>> {
    let mut parts = case.split(|byte| *byte == b'|');
    let made = parts.next().ok_or(Unreplayed::NoCase)?;
    let statements = parts.next().ok_or(Unreplayed::NoCase)?;
    let command = parts.next().ok_or(Unreplayed::NoCase)?;
    let is_right = is_right(alloc, made.trim_ascii(), statements, command.trim_ascii())?;
    said_of(alloc, case, right_text(is_right))
}

fn right_text(is_right: bool) -> &'static [u8] {
    if is_right {
        b"as before or as after"
    } else {
        b"wrong"
    }
}

/// Whether what is found is right after each stop of the command, over the store that the first one
/// made and the statements changed.
fn is_right(alloc: Global, made: &[u8], statements: &[u8], command: &[u8]) -> Tried<bool> {
    let mut image = Image::none(alloc);
    let is_right = is_right_in(alloc, &mut image, made, statements, command);
    is_right
}

fn is_right_in(
    alloc: Global,
    image: &mut Image,
    made: &[u8],
    statements: &[u8],
    command: &[u8],
) -> Tried<bool> {
    make(alloc, image, made)?;
    change(alloc, image, statements)?;
    let step = step_of(alloc, image, command)?;
    let is_right = is_right_of(alloc, &step);
    is_right
}

fn step_of<'a>(alloc: Global, image: &'a Image, command: &'a [u8]) -> Tried<Step<'a>> {
    let before = image.said(alloc, &Task::Find)?;
    let done = image.session(alloc, &Task::Command(command), u64::MAX, u64::MAX)?;
    let after = done.image.said(alloc, &Task::Find)?;
    Ok(Step {
        command,
        image,
        said: done.text,
        before,
        after,
    })
}

/// Whether it is right after a stop at each call of the log, and at each of the store itself.
fn is_right_of(alloc: Global, step: &Step) -> Tried<bool> {
    Ok(is_right_after(alloc, step, true)? && is_right_after(alloc, step, false)?)
}

/// Whether what is found is right after a stop at each call of the log, or of the store itself,
/// until none is refused, which more than two calls are.
fn is_right_after(alloc: Global, step: &Step, is_log: bool) -> Tried<bool> {
    for calls in 0..MOST_CALLS {
        let (of_log, of_db) = if is_log {
            (calls, u64::MAX)
        } else {
            (u64::MAX, calls)
        };
        let task = Task::Command(step.command);
        let session = step.image.session(alloc, &task, of_log, of_db)?;
        if !comes_back(alloc, step, &session)? {
            return Ok(false);
        }
        if session.whole {
            return Ok(2 < calls);
        }
    }
    Ok(false)
}

/// Whether the auction is as before the command or as after it once the machine came back, as after
/// it where it was done, and as after it once it was done again.
fn comes_back(alloc: Global, step: &Step, session: &Session) -> Tried<bool> {
    let command = Task::Command(step.command);
    let found = session.image.said(alloc, &Task::Find)?;
    let again = session.image.session(alloc, &command, u64::MAX, u64::MAX)?;
    let last = again.image.said(alloc, &Task::Find)?;
    let is_right = is_right_behind(step, session, found.as_slice(), &again, last.as_slice());
    Ok(is_right)
}

/// Whether that is right which was found behind a stop, which came of the command once it was done
/// again, and which was found last.
fn is_right_behind(
    step: &Step,
    session: &Session,
    found: &[u8],
    again: &Session,
    last: &[u8],
) -> bool {
    let is_done = session.text.as_slice() == step.said.as_slice();
    let is_after = found == step.after.as_slice();
    let is_before = found == step.before.as_slice();
    let is_again = again.text.as_slice() == step.said.as_slice();
    let is_last = last == step.after.as_slice();
    (is_after || is_before && !is_done) && (is_again || is_after) && is_last
}
