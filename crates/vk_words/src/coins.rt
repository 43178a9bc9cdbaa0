//! What the commands are to do that make a challenge without the auctioneer.

ghost use Rattle.std.specs.Prelude.{◌≡◌, IfSome, map, option_map, string_bytes};
ghost use Rattle.vk_words.specs.Coins.{IsCoinOrder, IsPartOrder, challenge_in, challenge_seen, coin_by, coin_seen, part_in, part_seen};

use crate::orders::{id, seed};
use crate::table::Verb;
use crate::word::{count, name, word};

/// What `coin-part` is to draw, and the name of its file.
#[derive(Clone, Copy, Debug)]
pub struct PartOrder<'a> {
    pub auction: [u8; 16],
    /// 1 to 16.
    pub auditor: u16,
    /// 1 to 64.
    pub lanes: u32,
    pub seed: [u8; 32],
    /// The name of the file that the share is written to.
    pub share: &'a str,
}

/// The names of the files of a command that makes a challenge.
#[derive(Clone, Copy, Debug)]
pub struct ChallengeNames<'a> {
    /// The file that is read.
    pub from: &'a str,
    /// The file that the challenge is written to, another one.
    pub challenge: &'a str,
}

/// A command that makes a challenge without the auctioneer, or a share of one.
#[derive(Clone, Copy, Debug)]
pub enum CoinOrder<'a> {
    /// Draws one auditor's share.
    Part(PartOrder<'a>),
    /// Joins the shares of a coin.
    Join(ChallengeNames<'a>),
    /// Derives the challenge from a board.
    Board(ChallengeNames<'a>),
}

/// The order of a `coin-part`.
#[tactic(auto, unfolding(crate::specs::Coins::part_in))]
fn part_order(words: &[String]) -> Option<PartOrder<'_>>
    ensures value { option_map part_seen result ≡ part_in (map string_bytes words.now) }
    ensures limits { IfSome result (λ order. IsPartOrder (part_seen order)) }
{
    let auction = id(words, 1)?;
    let auditor = count(word(words, 2), 16)?;
    let lanes = count(word(words, 3), 64)?;
    let seed = seed(words, 4)?;
    let share = name(words, 5)?;
    Some(PartOrder {
        auction,
        auditor: auditor as u16,
        lanes: lanes as u32,
        seed,
        share,
    })
}

/// The names of a file that is read and of the challenge that is made of it.
#[tactic(auto, unfolding(crate::specs::Coins::challenge_in))]
fn challenge_names(words: &[String]) -> Option<ChallengeNames<'_>>
    ensures { option_map challenge_seen result ≡ challenge_in (map string_bytes words.now) }
{
    let from = name(words, 1)?;
    let challenge = name(words, 2)?;
    if from == challenge {
        return None;
    }
    Some(ChallengeNames { from, challenge })
}

/// A command that makes a challenge, or a share of one. `None` of the others.
pub fn coin_order(verb: Verb, words: &[String]) -> Option<CoinOrder<'_>>
    ensures value { option_map coin_seen result ≡ coin_by verb (map string_bytes words.now) }
    ensures limits { IfSome result IsCoinOrder }
{
    match verb {
        Verb::CoinPart => {
            let order = part_order(words)?;
            Some(CoinOrder::Part(order))
        }
        Verb::CoinJoin => {
            let names = challenge_names(words)?;
            Some(CoinOrder::Join(names))
        }
        Verb::CoinBoard => {
            let names = challenge_names(words)?;
            Some(CoinOrder::Board(names))
        }
        _ => None,
    }
}
