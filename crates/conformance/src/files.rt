// Seals and secrets, most of them changed, and the line at which each stops being one.
use std::alloc::Global;
use vk_cases::{Text, Tried, Unreplayed, text_in, word_at};
use vk_io::Shelf;
use vk_lines::{Lines, ReadErr};
use vk_seal::{read_seal, read_secret};

/// The case, and its fault line; 0 where it has none.
pub fn put_fault<S: Shelf>(
    alloc: Global,
    shelf: &mut S,
    text: &mut Text,
    case: &[u8],
) -> Tried<()> {
    let name = text_in(word_at(case, 0)?)?;
    let is_secret = word_at(case, 2)? == b"secret".as_slice();
    let line = fault_line(alloc, shelf, name, is_secret)?;
    text.put(case);
    text.put_count(b" | ", line);
    Ok(())
}

/// The line at which the reader stops; 0 where it reads to the end.
fn fault_line<S: Shelf>(alloc: Global, shelf: &mut S, name: &str, is_secret: bool) -> Tried<u64> {
    let mut lines = Lines::start(alloc, shelf, name)?;
    let fault = if is_secret {
        read_secret(alloc, shelf, &mut lines).err()
    } else {
        read_seal(alloc, shelf, &mut lines).err()
    };
    match fault {
        None => Ok(0),
        Some(ReadErr::Malformed { line }) => Ok(line),
        Some(other) => Err(Unreplayed::from(other)),
    }
}
