//! `coin-board`: the challenge that a board's bytes give.

ghost use Rattle.std.specs.Prelude.{◌≡◌, length, IfOk, Ok};
ghost use Rattle.vk_coins.specs.Boards.{derive_deed, derived_said};
ghost use Rattle.vk_words.specs.Coins.{challenge_seen};

use std::alloc::Global;
use vk_effect::{Deed, Said};
use vk_reply::{Challenge, challenge_text};
use vk_residue::NoMemory;
use vk_text::ShortText;
use vk_words::ChallengeNames;

/// A challenge is written.
pub fn derive_deed(
    alloc: Global,
    names: &ChallengeNames<'_>,
    challenge: &Challenge,
) -> Result<Deed, NoMemory>
    ensures { IfOk result (λ deed. deed
        ≡ derive_deed (challenge_seen names.now) (Ok challenge.now)) }
{
    let text = challenge_text(alloc, challenge)?;
    let deed = Deed::says(alloc, say_derived(challenge)).with_file(alloc, names.challenge, text)?;
    Ok(deed)
}

/// What is said of a challenge that is derived. Takes no memory.
fn say_derived(challenge: &Challenge) -> Said
    ensures { result ≡ derived_said (length challenge.now.bits) }
{
    let line = ShortText::new()
        .word("derived bits ")
        .number(challenge.bits.len() as u64)
        .word("\n");
    Said::of_short(0, line)
}
