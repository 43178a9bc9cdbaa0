//! The fields of a line, which stand between single spaces.

ghost use Rattle.std.specs.Prelude.{◌≡◌, ◌==◌, ◌<◌, ◌≤◌, ◌+◌, ◌↔◌, length, slice_get, option_map, IfSome, IsNone, Some};
ghost use Rattle.std.specs.List.{count_by, position};
ghost use Rattle.vk_lines.specs.Tokens.{fields_of, first_by, with_fields, word_of, behind_word, one_of, two_of, three_of};

use memchr::memchr;

/// How many fields a line has: one more than it has spaces.
pub fn fields(text: &[u8]) -> usize
    ensures fields { result ≡ length (fields_of text.now) }
    ensures spaces { result ≡ count_by (λ byte. byte == 32) text.now + 1 }
{
    let spaces = text.iter().filter(|byte| **byte == b' ').count();
    spaces + 1
}

/// The field of that index, from 0, which may be empty; `None` where the line has fewer fields.
pub fn field(text: &[u8], index: usize) -> Option<&[u8]>
    ensures bytes { option_map (λ x. x.now) result ≡ slice_get (fields_of text.now) index }
    ensures none { IsNone result ↔ (length (fields_of text.now) ≤ index) }
{
    text.split(|byte| *byte == b' ').nth(index)
}

/// Whether the text is this word.
pub fn read_word(text: &[u8], word: &[u8]) -> Option<()>
    ensures { result ≡ word_of word.now text.now }
{
    if text == word { Some(()) } else { None }
}

/// The first field, and the text behind the space after it, where there is one.
fn cut(text: &[u8]) -> (&[u8], Option<&[u8]>)
    ensures { fields_of text.now ≡ with_fields result.0.now (option_map (λ x. x.now) result.1) }
{
    match first_space(text) {
        Some(at) => (&text[..at], Some(&text[at + 1..])),
        None => (text, None),
    }
}

/// Where the first space stands.
fn first_space(text: &[u8]) -> Option<usize>
    ensures place { result ≡ position (λ byte. byte == 32) text.now }
    ensures within { IfSome result (λ at. at < length text.now) }
{
    // Most words have one letter, and need no search.
    if text.len() > 1 && text[0] != b' ' && text[1] == b' ' {
        return Some(1);
    }
    memchr(b' ', text)
}

/// The first field, and the text behind the space after it, where there is one.
#[tactic(auto, using(crate::proofs::Successive::first_by_more))]
pub fn next_field(text: &[u8]) -> Option<(&[u8], &[u8])>
    ensures { option_map (λ x. (x.0.now, fields_of x.1.now)) result
        ≡ first_by Some (fields_of text.now) }
{
    let (first, rest) = cut(text);
    Some((first, rest?))
}

/// The text behind this word and a space, where it begins so. No byte of that text is looked at.
#[tactic(auto, using(crate::proofs::Words::behind_word_more))]
pub fn behind_word<'a>(text: &'a [u8], word: &[u8]) -> Option<&'a [u8]>
    ensures { option_map (λ x. fields_of x.now) result ≡ behind_word word.now (fields_of text.now) }
{
    let (first, rest) = cut(text);
    let rest = rest?;
    read_word(first, word)?;
    Some(rest)
}

/// The field of a text that has one.
#[tactic(auto, using(crate::proofs::Words::one_of_more))]
pub fn one_field(text: &[u8]) -> Option<&[u8]>
    ensures { option_map (λ x. x.now) result ≡ one_of (fields_of text.now) }
{
    let (first, rest) = cut(text);
    match rest {
        Some(_) => None,
        None => Some(first),
    }
}

/// The fields of a text that has two.
pub fn two_fields(text: &[u8]) -> Option<(&[u8], &[u8])>
    ensures { option_map (λ x. (x.0.now, x.1.now)) result ≡ two_of (fields_of text.now) }
{
    let (first, rest) = cut(text);
    let second = one_field(rest?)?;
    Some((first, second))
}

/// The fields of a text that has three.
pub fn three_fields(text: &[u8]) -> Option<(&[u8], &[u8], &[u8])>
    ensures { option_map (λ x. (x.0.now, x.1.now, x.2.now)) result ≡ three_of (fields_of text.now) }
{
    let (first, rest) = cut(text);
    let (second, third) = two_fields(rest?)?;
    Some((first, second, third))
}
