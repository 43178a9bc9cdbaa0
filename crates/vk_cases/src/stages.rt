// Trials that are files of steps, and what is told of each step.
use crate::cases::{behind, read_cases, word_at};
use crate::parts::text_in;
use crate::unreplayed::Tried;
use std::alloc::Global;
use std::process::ExitCode;
use vk_io::{Shelf, Sink};
use vk_lines::end_line;

/// What steps are taken on.
pub trait Stage {
    /// Begins a trial, on which what those before it did has no effect.
    fn begin(&mut self);

    /// Takes a step of that word, and tells what came of it.
    fn take(&mut self, word: &str, step: &[u8], told: &mut Vec<u8>) -> Tried<()>;
}

/// Takes the steps of the file of that name, one a line, and tells of each.
pub fn take_file<T: Stage, S: Shelf, W: Sink>(
    alloc: Global,
    stage: &mut T,
    folder: &mut S,
    name: &str,
    out: &mut W,
) -> Tried<()> {
    let steps = read_cases(alloc, folder, name)?;
    let mut told = Vec::new(alloc);
    let taken = take_each(stage, steps.as_slice(), out, &mut told);
    taken
}

fn take_each<T: Stage, W: Sink>(
    stage: &mut T,
    steps: &[u8],
    out: &mut W,
    told: &mut Vec<u8>,
) -> Tried<()> {
    for step in steps.split(|byte| *byte == b'\n') {
        if !step.is_empty() {
            told.clear();
            tell_step(stage, step, told)?;
            out.put(told.as_slice())?;
        }
    }
    Ok(())
}

/// Takes a step, and tells what came of it. A trial begins with a line `# TEXT`, which is told as
/// it is.
fn tell_step<T: Stage>(stage: &mut T, step: &[u8], told: &mut Vec<u8>) -> Tried<()> {
    told.extend_from_slice(step)?;
    let word = text_in(word_at(step, 0)?)?;
    if word == "#" {
        stage.begin();
    } else {
        tell_text(told, ": ")?;
        stage.take(word, step, told)?;
    }
    end_line(told)?;
    Ok(())
}

/// Puts the text behind what is told.
pub fn tell_text(told: &mut Vec<u8>, text: &str) -> Tried<()> {
    told.extend_from_slice(text.as_bytes())?;
    Ok(())
}

/// The word at that place of a step as text, empty where there is none.
pub fn text_at(step: &[u8], place: usize) -> Tried<&str> {
    text_in(word_at(step, place).unwrap_or(&[]))
}

/// What stands behind the first word of a step, and behind the space that ends it.
pub fn behind_word<'a>(step: &'a [u8], word: &str) -> &'a [u8] {
    behind(step, word.len().saturating_add(1))
}

/// The status that a program of that code ends with, and 10 where it is none of 0 to 9.
pub fn status_of(code: ExitCode) -> u64 {
    for status in 0..10 {
        if code == ExitCode::from(status) {
            return u64::from(status);
        }
    }
    10
}
