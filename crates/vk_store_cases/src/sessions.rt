// Stores that are closed and opened again, changed, and made by other programs.
use crate::commands::{Task, behind_word};
use crate::stores::Image;
use std::alloc::Global;
use vk_cases::{Text, Tried, Unreplayed, number_at, text_in, text_of, word_at};
use vk_io::{Content, Shelf, read_whole};

/// How the store that statements change is made.
const ANSWERED: &[u8] = b"keep announce 4 2, submit 300 7, submit 65535 15, prove, answer 01";

/// The most bytes that a store has which another program made.
const MOST_BYTES: u64 = 1 << 20;

// A store is made and dropped in one place, and lent to what is done to it.

/// The commands of a case, each with what came of it over the store that those before it left.
pub fn house_text(alloc: Global, case: &[u8]) -> Tried<Vec<u8>> {
    let mut image = Image::none(alloc);
    let text = told_house(alloc, &mut image, case);
    text
}

fn told_house(alloc: Global, image: &mut Image, case: &[u8]) -> Tried<Vec<u8>> {
    let mut text = Text::new(alloc);
    put_house(alloc, image, case, &mut text)?;
    text.into_bytes()
}

fn put_house(alloc: Global, image: &mut Image, case: &[u8], text: &mut Text) -> Tried<()> {
    for part in case.split(|byte| *byte == b'|') {
        take_part(alloc, image, part.trim_ascii(), text)?;
    }
    Ok(())
}

/// Does a part of a case to the store: `run STATEMENTS`, `seals COUNT`, or a command, of which it
/// is told what came.
fn take_part(alloc: Global, image: &mut Image, part: &[u8], text: &mut Text) -> Tried<()> {
    match text_in(word_at(part, 0)?)? {
        "run" => change(alloc, image, behind_word(part).trim_ascii()),
        "seals" => hand_in(alloc, image, number_at(part, 1, 64)?),
        _ => {
            let said = image.take(alloc, &Task::Command(part))?;
            put_said(text, part, said.as_slice());
            Ok(())
        }
    }
}

/// So many seals are handed in, each at its place as its seat and with it as its bid, and the store
/// is closed and opened between all of them.
fn hand_in(alloc: Global, image: &mut Image, many: u64) -> Tried<()> {
    for i in 0..many {
        hand_in_one(alloc, image, i + 1)?;
    }
    Ok(())
}

fn hand_in_one(alloc: Global, image: &mut Image, seat: u64) -> Tried<()> {
    let mut words = Text::new(alloc);
    let handed_in = hand_in_by(alloc, image, seat, &mut words);
    handed_in
}

/// The same with that text for the command, and then for what is to be answered.
fn hand_in_by(alloc: Global, image: &mut Image, seat: u64, words: &mut Text) -> Tried<()> {
    words.put_number(b"submit ", seat);
    words.put_number(b" ", seat);
    let said = image.take(alloc, &Task::Command(words.bytes()?))?;
    words.clear();
    words.put_number(b"position ", seat);
    if said.as_slice() != words.bytes()? {
        return Err(Unreplayed::Outside);
    }
    Ok(())
}

/// The statements of a case, and what is found in the store that they changed.
pub fn change_text(alloc: Global, case: &[u8]) -> Tried<Vec<u8>> {
    let mut image = Image::none(alloc);
    let text = changed_text(alloc, &mut image, case);
    text
}

fn changed_text(alloc: Global, image: &mut Image, case: &[u8]) -> Tried<Vec<u8>> {
    make(alloc, image, ANSWERED)?;
    change(alloc, image, case)?;
    found_text(alloc, image, case)
}

/// The name of a store that another program made, and what is found in it.
pub fn file_text<S: Shelf>(alloc: Global, shelf: &mut S, case: &[u8]) -> Tried<Vec<u8>> {
    let name = text_of(alloc, case)?;
    match read_whole(alloc, shelf, name.as_str(), MOST_BYTES)? {
        Content::Held(bytes) => {
            let image = Image::of(alloc, bytes.into_vec());
            let text = found_text(alloc, &image, case);
            text
        }
        Content::Missing | Content::TooLong => Err(Unreplayed::NoCase),
    }
}

/// The case, and what is found in the store.
fn found_text(alloc: Global, image: &Image, case: &[u8]) -> Tried<Vec<u8>> {
    let said = image.said(alloc, &Task::Find)?;
    said_of(alloc, case, said.as_slice())
}

/// Does a command to the store, whatever it answers.
pub fn make(alloc: Global, image: &mut Image, command: &[u8]) -> Tried<()> {
    let _said = image.take(alloc, &Task::Command(command))?;
    Ok(())
}

/// Runs these statements on the store.
pub fn change(alloc: Global, image: &mut Image, statements: &[u8]) -> Tried<()> {
    let said = image.take(alloc, &Task::Run(text_in(statements)?))?;
    if text_in(said.as_slice())? != "ran" {
        return Err(Unreplayed::NoCase);
    }
    Ok(())
}

/// A line with what was asked, and what came of it.
pub fn said_of(alloc: Global, asked: &[u8], said: &[u8]) -> Tried<Vec<u8>> {
    let mut text = Text::new(alloc);
    put_said(&mut text, asked, said);
    text.into_bytes()
}

/// Puts such a line behind the text.
fn put_said(text: &mut Text, asked: &[u8], said: &[u8]) {
    text.put(asked);
    text.put(b": ");
    text.put_line(said);
}
