//! What a hint says to a person.

ghost use Rattle.std.specs.Prelude.{◌≡◌, ◌-◌, ◌^◌, ◌<◌, ◌≤◌, length};
ghost use Rattle.vk_words.specs.declared.hints.Hint.TheVariants.{Word};
ghost use Rattle.vk_words.specs.Hints.{count_text, hint_text, kind_text, many_text};

use crate::hints::Hint;
use crate::kinds::WordKind;
use vk_text::ShortText;

/// The version that the program says it is.
const VERSION: &str = "1.0";

/// What a word of the kind is.
fn kind_text(kind: WordKind) -> &'static str
    ensures text { result.now ≡ kind_text kind }
    ensures short { length result.now ≤ 80 }
{
    match kind {
        WordKind::Id => "an id, 32 hexadecimal digits in lower case",
        WordKind::Seed => "a seed, 64 hexadecimal digits in lower case",
        WordKind::Seat => "a seat, a whole number from 1 to 65535 with no 0 in front",
        WordKind::Auditor => "an auditor's number, from 1 to 16 with no 0 in front",
        WordKind::Width => "a width, a whole number from 1 to 40 with no 0 in front",
        WordKind::Lanes => "a number of lanes, from 1 to 64 with no 0 in front",
        WordKind::Number => "a whole number below 2^64 with no 0 in front",
        WordKind::Reserve => "a reserve, a whole number below 2^WIDTH with no 0 in front",
        WordKind::Name => "the name of a file, of 1 to 255 bytes",
        WordKind::OtherName => "the name of a file, of 1 to 255 bytes, and not the word before it",
        WordKind::Kind => "a kind of claims, which is uniform or matching",
    }
}

/// Of so many words, those behind the first.
fn behind(words: usize) -> u64
    ensures { result ≡ words - 1 }
{
    words.saturating_sub(1) as u64
}

/// How many words stand behind a command's name.
fn many_line(fewest: u64, most: u64) -> ShortText
    ensures text { result ≡ many_text fewest most }
    ensures short { length result ≤ 100 }
{
    let line = ShortText::new().word("vickrey: words behind this command's name: ");
    if fewest == most {
        return line.number(most);
    }
    line.number(fewest).word(" or ").number(most)
}

/// That words are too few or too many.
fn count_line(fewest: u64, most: u64, given: u64) -> ShortText
    ensures { result ≡ count_text fewest most given }
{
    many_line(fewest, most)
        .word(" wanted, ")
        .number(given)
        .word(" given; see `man vickrey`\n")
}

/// That a word isn't what it has to be.
fn word_line(place: usize, kind: WordKind) -> ShortText
    ensures { result ≡ hint_text (Word place kind) }
{
    ShortText::new()
        .word("vickrey: word ")
        .number(place as u64)
        .word(" behind the command's name has to be ")
        .word(kind_text(kind))
        .word("; see `man vickrey`\n")
}

/// The line of a hint, for standard error. The word that names the command isn't counted.
pub fn hint_line(hint: Hint) -> ShortText
    ensures { result ≡ hint_text hint }
{
    match hint {
        Hint::Command => ShortText::new()
            .word("vickrey ")
            .word(VERSION)
            .word(": the first word names no command; see `man vickrey`\n"),
        Hint::Count {
            fewest,
            most,
            given,
        } => count_line(behind(fewest), behind(most), behind(given)),
        Hint::Word { place, kind } => word_line(place, kind),
    }
}
