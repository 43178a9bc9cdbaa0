//! `coin-join`: the joint challenge of a coin.

ghost use Rattle.std.specs.Prelude.{◌≡◌, IfOk, IfSome};
ghost use Rattle.vk_coin.specs.Coins.{IsCoin};
ghost use Rattle.vk_lines.specs.Common.{Gives, OnlyReads};
ghost use Rattle.vk_words.specs.Coins.{challenge_seen};
ghost use Rattle.vk_effect.specs.Reading.{said_of_unread};
ghost use Rattle.vk_coins.specs.Joining.{coin_deed, coin_in, joined_said, unmet_said};

use std::alloc::Global;
use vk_coin::{Coin, JointErr, joint, read_coin};
use vk_effect::{Deed, Said, Unread, begin_named, named_value, numbers_line, say_refused};
use vk_io::Shelf;
use vk_reply::challenge_text;
use vk_residue::NoMemory;
use vk_words::ChallengeNames;

/// Reads the named coin.
#[tactic(auto, unfolding(vk_effect::specs::Reading::named_in))]
pub fn named_coin<S: Shelf>(alloc: Global, shelf: &mut S, name: &str) -> Result<Coin, Unread>
    ensures modelled { IfSome (S.held shelf.old)
        (λ files. Gives said_of_unread (λ coin. coin) result (coin_in files name.now)) }
    ensures shelf { OnlyReads S.held S.Shelf.faults Unread.Failed result shelf.old shelf.new }
    ensures right { IfOk result IsCoin }
{
    let mut lines = begin_named(alloc, shelf, name)?;
    let coin = read_coin(alloc, shelf, &mut lines);
    let coin = named_value(alloc, name, coin);
    coin
}

/// The joint challenge of a coin is written, or the first share is said that doesn't open its part.
pub fn join_deed(alloc: Global, names: &ChallengeNames<'_>, coin: &Coin) -> Result<Deed, NoMemory>
    requires { IsCoin coin.now }
    ensures { IfOk result (λ deed. deed ≡ coin_deed (challenge_seen names.now) coin.now) }
{
    match joint(alloc, coin) {
        Ok(challenge) => {
            let text = challenge_text(alloc, &challenge)?;
            let deed = Deed::says(alloc, say_joined(coin)).with_file(alloc, names.challenge, text)?;
            Ok(deed)
        }
        Err(JointErr::Part { auditor }) => {
            let said = unmet(alloc, names.from, auditor)?;
            Ok(Deed::says(alloc, said))
        }
        Err(JointErr::NoMemory) => Err(NoMemory),
    }
}

/// What is said of a coin that is joined. Takes no memory.
fn say_joined(coin: &Coin) -> Said
    requires { IsCoin coin.now }
    ensures { result ≡ joined_said coin.now }
{
    let auditors = coin.parts.len() as u32;
    Said::of_short(
        0,
        numbers_line("joined auditors ", auditors, " bits ", coin.bits),
    )
}

/// What is said of a coin in which the share of that auditor doesn't open its part.
fn unmet(alloc: Global, name: &str, auditor: u16) -> Result<Said, NoMemory>
    ensures { IfOk result (λ said. said ≡ unmet_said name.now auditor) }
{
    let cause = format!(in alloc; "part {auditor}")?;
    let said = say_refused(alloc, name, cause.as_str())?;
    Ok(said)
}
