// Commands of a house, one after another over the same files, of which calls may fail.
use crate::house::{House, behind_first};
use vk_cases::{Text, Tried, words_of};

/// What the commands of the parts come to, which the house does one after another.
pub fn put_house(house: &mut House, text: &mut Text, name: &[u8], parts: &[u8]) -> Tried<()> {
    for part in parts.split(|byte| *byte == b'|') {
        put_part(house, text, name, part)?;
    }
    Ok(())
}

/// Does what the part says, and tells of a command.
fn put_part(house: &mut House, text: &mut Text, name: &[u8], part: &[u8]) -> Tried<()> {
    let words = words_of(house.alloc, part)?;
    let put = put_command(house, text, name, part, words.as_slice());
    put
}

fn put_command(
    house: &mut House,
    text: &mut Text,
    name: &[u8],
    part: &[u8],
    words: &[String],
) -> Tried<()> {
    match first_word(words) {
        "forget" => house.forget(),
        "fail-shelf" | "fail-keeper" | "fail-sink" => house.fail(first_word(words), part)?,
        _ => {
            house.note(words)?;
            house.run(text, name, words);
            house.put_left(text, behind_first(words), false);
        }
    }
    Ok(())
}

/// The first word, empty where there is none.
fn first_word(words: &[String]) -> &str {
    match words.first() {
        Some(word) => word.as_str(),
        None => "",
    }
}
