//! The names of the files that a command reads.

ghost use Rattle.std.specs.Prelude.{◌≡◌, map, option_map, string_bytes};
ghost use Rattle.vk_words.specs.Names.{extract_seen, verify_seen, confront_seen, extract_in, verify_in, confront_in};

use crate::word::name;
use vk_judge::{OneReply, TwoReplies};

/// The names of the files of `confront`.
#[derive(Clone, Copy, Debug)]
pub struct ConfrontNames<'a> {
    pub replies: TwoReplies<'a>,
    pub secret: &'a str,
}

/// The names of a `verify`.
#[tactic(auto, unfolding(crate::specs::Names::verify_in, crate::specs::Names::attempt_at))]
pub fn verify_names(words: &[String]) -> Option<OneReply<'_>>
    ensures { option_map verify_seen result ≡ verify_in (map string_bytes words.now) }
{
    let file = name(words, 1)?;
    let challenge = name(words, 2)?;
    let reply = name(words, 3)?;
    Some(OneReply {
        file,
        challenge,
        reply,
    })
}

/// The names of an `extract`, or of a `confront` without its last.
#[tactic(auto, unfolding(crate::specs::Names::extract_in, crate::specs::Names::attempt_at))]
pub fn extract_names(words: &[String]) -> Option<TwoReplies<'_>>
    ensures { option_map extract_seen result ≡ extract_in (map string_bytes words.now) }
{
    let names = verify_names(words)?;
    let challenge2 = name(words, 4)?;
    let reply2 = name(words, 5)?;
    Some(TwoReplies {
        file: names.file,
        challenge1: names.challenge,
        reply1: names.reply,
        challenge2,
        reply2,
    })
}

/// The names of a `confront`.
#[tactic(auto, unfolding(crate::specs::Names::confront_in))]
pub fn confront_names(words: &[String]) -> Option<ConfrontNames<'_>>
    ensures { option_map confront_seen result ≡ confront_in (map string_bytes words.now) }
{
    let replies = extract_names(words)?;
    let secret = name(words, 6)?;
    Some(ConfrontNames { replies, secret })
}
