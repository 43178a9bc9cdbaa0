// Runs of the whole program over files in memory: its status, what it prints, and what it leaves.
use crate::house::{House, behind_first};
use vk_cases::{Text, Tried, cut, words_of};

/// What the run comes to. Behind its words stand the files that it leaves which no word names.
pub fn put_run(house: &mut House, text: &mut Text, name: &[u8], parts: &[u8]) -> Tried<()> {
    let (words, left) = cut(parts, b'|');
    let words = words_of(house.alloc, words)?;
    let left = words_of(house.alloc, left)?;
    let put = put_ended(house, text, name, words.as_slice(), left.as_slice());
    put
}

/// The status of the run, what it printed, and what it left in the files of its words and in these.
fn put_ended(
    house: &mut House,
    text: &mut Text,
    name: &[u8],
    words: &[String],
    left: &[String],
) -> Tried<()> {
    house.note(words)?;
    house.note(left)?;
    house.run(text, name, words);
    house.put_left(text, behind_first(words), true);
    house.put_left(text, left, true);
    Ok(())
}
