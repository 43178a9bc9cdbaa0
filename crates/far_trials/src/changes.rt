// Files whose lines are changed, and put back.
use std::alloc::Global;
use vk_io::{OutsideErr, Shelf};
use vk_residue::NoMemory;

/// How many bytes are written at once.
const PIECE: usize = 1 << 20;

/// The file with this text in place of the line of that number, from 1. Behind the last line feed
/// one more line begins.
pub fn with_line(
    alloc: Global,
    file: &[u8],
    number: u64,
    text: &[u8],
) -> Result<Vec<u8>, NoMemory> {
    let mut changed = Vec::new(alloc);
    for (line, place) in file.split(|byte| *byte == b'\n').zip(1..=u64::MAX) {
        if 1 < place {
            changed.push(b'\n')?;
        }
        changed.extend_from_slice(if place == number { text } else { line })?;
    }
    Ok(changed)
}

/// Makes the named file hold these bytes.
pub fn put_file<S: Shelf>(shelf: &mut S, name: &str, bytes: &[u8]) -> Result<(), OutsideErr> {
    shelf.create(name)?;
    for piece in bytes.chunks(PIECE) {
        shelf.append(name, piece)?;
    }
    Ok(())
}
