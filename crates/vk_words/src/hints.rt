//! Why words are no command, for a person who wrote them.

ghost use Rattle.std.specs.Prelude.{◌≡◌, ◌+◌, ◌^◌, ◌<◌, ◌≤◌, is_none, is_some, length, map, string_bytes};
ghost use Rattle.vk_words.specs.Commands.{command_words};
ghost use Rattle.vk_words.specs.Hints.{first_unfit, hint_in};

use crate::kinds::{WordKind, is_of_kind, kinds_of};
use crate::table::{CommandRow, row_of};
use crate::word::word;

/// Why words are no command.
#[derive(Clone, Copy, Debug, PartialEq, Eq)]
pub enum Hint {
    /// The first names none.
    Command,
    /// The command has `fewest` to `most` words, the first included, and these are `given`.
    Count {
        fewest: usize,
        most: usize,
        given: usize,
    },
    /// The word at that place, counted from 0, isn't of that kind. It is the first that isn't what
    /// it has to be.
    Word {
        place: usize,
        kind: WordKind,
    },
}

/// The first word, from that place on, that isn't of the kind which stands for it.
#[tactic(auto, unfolding(crate::specs::Hints::first_unfit))]
fn first_unfit(kinds: &[WordKind], words: &[String], place: usize) -> Option<Hint>
    requires some { 1 ≤ place }
    requires end { place + length kinds.now < 2 ^ 64 }
    ensures { result ≡ first_unfit kinds.now (map string_bytes words.now) place }
{
    let mut place = place;
    for kind in kinds {
        if !is_of_kind(*kind, words, place) {
            return Some(Hint::Word { place, kind: *kind });
        }
        place += 1;
    }
    None
}

/// The same of the words of a command line, by what the first of them names.
#[tactic(auto, unfolding(crate::specs::Hints::hint_in))]
fn hint_by(words: &[String]) -> Option<Hint>
    ensures { result ≡ hint_in (map string_bytes words.now) }
{
    let Some(CommandRow(_, verb, fewest, most, _)) = row_of(word(words, 0)) else {
        return Some(Hint::Command);
    };
    if words.len() < *fewest || *most < words.len() {
        return Some(Hint::Count {
            fewest: *fewest,
            most: *most,
            given: words.len(),
        });
    }
    let hint = first_unfit(kinds_of(*verb), words, 1);
    hint
}

/// Why the words are no command. None where they are one.
#[tactic(auto, using(crate::proofs::Fitting::no_hint))]
pub fn hint_of(words: &[String]) -> Option<Hint>
    ensures value { result ≡ hint_in (map string_bytes words.now) }
    ensures none { is_none result ≡ is_some (command_words (map string_bytes words.now)) }
{
    let hint = hint_by(words);
    hint
}
