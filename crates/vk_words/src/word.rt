//! The single words of a command.

ghost use Rattle.std.specs.Prelude.{◌≡◌, ◌<◌, ◌≤◌, [], IfSome, length, map, option_map, string_bytes, slice_index_or};
ghost use Rattle.vk_lines.specs.Tokens.{number_token};
ghost use Rattle.vk_words.specs.Names.{name_at};

use vk_lines::read_decimal;

/// The word at that place. It is empty behind the last.
pub fn word(words: &[String], place: usize) -> &str
    ensures { result.now ≡ slice_index_or (map string_bytes words.now) place [] }
{
    match words.get(place) {
        Some(word) => word.as_str(),
        None => "",
    }
}

/// The name at that place, which has 1 to 255 bytes.
pub fn name(words: &[String], place: usize) -> Option<&str>
    ensures { option_map (λ x. x.now) result ≡ name_at (map string_bytes words.now) place }
{
    let word = word(words, place);
    if word.is_empty() || 255 < word.len() {
        return None;
    }
    Some(word)
}

/// A number from 1 to `most`.
pub fn count(word: &str, most: u64) -> Option<u64>
    ensures value { result ≡ number_token 1 most word.now }
    ensures within { IfSome result (λ number. (1 ≤ number) × (number ≤ most)) }
{
    let number = read_decimal(word.as_bytes(), most)?;
    if 1 <= number { Some(number) } else { None }
}
