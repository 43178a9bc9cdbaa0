//! What the words of a command have to be.

ghost use Rattle.std.specs.Prelude.{◌≡◌, ◌-◌, ◌^◌, ◌<◌, ◌≤◌, length, map, string_bytes};
ghost use Rattle.vk_words.specs.Hints.{is_of_kind, kinds_of, most_reserve};

use crate::claim::kind_named;
use crate::table::Verb;
use crate::word::{count, name, word};
use vk_lines::{read_decimal, read_hex16, read_hex32};

/// What a word of a command has to be.
#[derive(Clone, Copy, Debug, PartialEq, Eq)]
pub enum WordKind {
    /// The id of an auction: 32 hexadecimal digits.
    Id,
    /// A seed: 64 hexadecimal digits.
    Seed,
    /// 1 to 65535.
    Seat,
    /// 1 to 16.
    Auditor,
    /// 1 to 40.
    Width,
    /// 1 to 64.
    Lanes,
    /// A number below 2^64.
    Number,
    /// A number below 2^WIDTH, or nothing.
    Reserve,
    /// The name of a file: 1 to 255 bytes.
    Name,
    /// Such a name, and not the one that stands before it.
    OtherName,
    /// The word of a kind of claims.
    Kind,
}

/// What the words behind the first of a command have to be, one after another.
pub fn kinds_of(verb: Verb) -> &'static [WordKind]
    ensures kinds { result.now ≡ kinds_of verb }
    ensures few { length result.now ≤ 8 }
{
    use WordKind::{Auditor, Id, Kind, Lanes, Name, Number, OtherName, Reserve, Seat, Seed, Width};
    match verb {
        Verb::Seal => &[Id, Seat, Number, Width, Lanes, Seed, Name, OtherName],
        Verb::Announce => &[Id, Width, Lanes, Reserve],
        Verb::Submit => &[Id, Name, Name],
        Verb::Prove => &[Id, Seed, Name],
        Verb::Answer => &[Id, Name, OtherName],
        Verb::Show => &[Id],
        Verb::Verify | Verb::ClaimVerify => &[Name, Name, Name],
        Verb::Extract | Verb::ClaimExtract => &[Name, Name, Name, Name, Name],
        Verb::Confront => &[Name, Name, Name, Name, Name, Name],
        Verb::Report | Verb::Ceremony => &[Name],
        Verb::Sample => &[Number],
        Verb::ClaimSample => &[Kind, Number],
        Verb::CoinPart => &[Id, Auditor, Lanes, Seed, Name],
        Verb::CoinJoin | Verb::CoinBoard => &[Name, OtherName],
    }
}

/// The greatest reserve under the width that stands in the third word. 0 where no width stands
/// there.
fn most_reserve(words: &[String]) -> u64
    ensures { result ≡ most_reserve (map string_bytes words.now) }
{
    match count(word(words, 2), 40) {
        Some(width) => (1 << width) - 1,
        None => 0,
    }
}

/// Whether the word at that place is of the kind. A reserve may be left out.
pub fn is_of_kind(kind: WordKind, words: &[String], place: usize) -> bool
    requires { 1 ≤ place }
    ensures { result ≡ is_of_kind kind (map string_bytes words.now) place }
{
    let text = word(words, place);
    match kind {
        WordKind::Id => read_hex16(text.as_bytes()).is_some(),
        WordKind::Seed => read_hex32(text.as_bytes()).is_some(),
        WordKind::Seat => count(text, 65535).is_some(),
        WordKind::Auditor => count(text, 16).is_some(),
        WordKind::Width => count(text, 40).is_some(),
        WordKind::Lanes => count(text, 64).is_some(),
        WordKind::Number => read_decimal(text.as_bytes(), u64::MAX).is_some(),
        WordKind::Reserve => {
            words.len() <= place || read_decimal(text.as_bytes(), most_reserve(words)).is_some()
        }
        WordKind::Name => name(words, place).is_some(),
        WordKind::OtherName => { name(words, place).is_some() && word(words, place - 1) != text }
        WordKind::Kind => kind_named(text.as_bytes()).is_some(),
    }
}
