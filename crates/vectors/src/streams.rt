// Streams of words: the first of them, some far ones, and what is drawn from the start.
use vk_cases::{Text, Tried, Unreplayed, id_at, key_at, number_at};
use vk_dice::{ChaChaWords, Words, draw_bit, draw_key, draw_residue};

/// The case, and what its stream gives.
pub fn put_stream(text: &mut Text, case: &[u8]) -> Tried<()> {
    let seed = key_at(case, 1)?;
    let auction = id_at(case, 2)?;
    let stream = number_at(case, 3, u64::MAX)?;
    text.put_line(case);
    put_words(text, &mut ChaChaWords::of(&seed, &auction, stream));
    put_draws(text, &mut ChaChaWords::of(&seed, &auction, stream))
}

/// The first twelve words, and three that stand far ahead.
fn put_words(text: &mut Text, words: &mut ChaChaWords) {
    text.put(b"words");
    for _ in 0..12 {
        text.put_number(b" ", words.next());
    }
    text.put(b"\nfar");
    put_far(text, words, 12, 100);
    put_far(text, words, 101, 1000);
    put_far(text, words, 1001, 4095);
    text.put(b"\n");
}

/// The word of that number, where those before `taken` were taken.
fn put_far(text: &mut Text, words: &mut ChaChaWords, taken: u64, number: u64) {
    for _ in taken..number {
        words.next();
    }
    text.put_number(b" ", number);
    text.put_number(b":", words.next());
}

/// Six draws in a row: a residue, a key, a bit, a residue, a key and a key.
fn put_draws(text: &mut Text, words: &mut ChaChaWords) -> Tried<()> {
    text.put(b"draws");
    put_residue(text, words)?;
    text.put_hex(b" ", &draw_key(words));
    text.put_number(b" ", u64::from(draw_bit(words)));
    put_residue(text, words)?;
    text.put_hex(b" ", &draw_key(words));
    text.put_hex(b" ", &draw_key(words));
    text.put(b"\n");
    Ok(())
}

fn put_residue(text: &mut Text, words: &mut ChaChaWords) -> Tried<()> {
    match draw_residue(words) {
        Ok(residue) => text.put_number(b" ", residue.get()),
        Err(_dry) => return Err(Unreplayed::NoCase),
    }
    Ok(())
}
