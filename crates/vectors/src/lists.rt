// Lists of words, and the residue that is drawn from each.
use std::alloc::Global;
use vk_cases::{Text, Tried, numbers_in};
use vk_dice::{ListWords, Words, draw_residue};

/// How many words a draw looks at, at most.
const MOST_WORDS: usize = 4;

/// A word that no list has. It stands behind those that a draw may look at.
const MARK: u64 = 1;

/// The words, the residue that is drawn from them or `dry`, and how many words that took.
pub fn put_draw(alloc: Global, text: &mut Text, case: &[u8]) -> Tried<()> {
    text.put(case);
    let mut list = numbers_in(alloc, case)?;
    put_zeros(&mut list)?;
    let mut words = ListWords::of(alloc, list.as_slice())?;
    put_drawn(text, &mut words);
    Ok(())
}

/// Appends the zeros that follow the words, and the mark.
fn put_zeros(list: &mut Vec<u64>) -> Tried<()> {
    for _ in list.len()..MOST_WORDS {
        list.push(0)?;
    }
    list.push(MARK)?;
    Ok(())
}

/// The residue that is drawn from the words or `dry`, and how many words that took.
fn put_drawn(text: &mut Text, words: &mut ListWords) {
    match draw_residue(words) {
        Ok(residue) => text.put_number(b" | ", residue.get()),
        Err(_dry) => text.put(b" | dry"),
    }
    text.put_number(b" | ", words_taken(words));
    text.put(b"\n");
}

/// How many words were taken of those before the mark.
fn words_taken(words: &mut ListWords) -> u64 {
    for taken in 0..MOST_WORDS {
        if words.next() == MARK {
            return (MOST_WORDS - taken) as u64;
        }
    }
    0
}
