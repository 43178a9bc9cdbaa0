//! The command that words are.

ghost use Rattle.std.specs.Prelude.{◌≡◌, IfSome, IsFalse, length, map, option_map, string_bytes};
ghost use Rattle.vk_words.specs.Commands.{AsksNoKeeper, IsCommand, command_by, command_seen, command_words, first_asks, house_in, house_words};
ghost use Rattle.vk_words.specs.Orders.{IsHouseOrder, house_seen};

use crate::audits::{AuditOrder, ClaimOrder};
use crate::claim::{Kind, kind_named};
use crate::coins::{CoinOrder, coin_order};
use crate::names::{confront_names, extract_names, verify_names};
use crate::orders::{HouseOrder, SealOrder, house_order, seal_order};
use crate::table::{CommandRow, Verb, row_of};
use crate::word::{name, word};
use vk_lines::read_decimal;

/// A command.
#[derive(Clone, Copy, Debug)]
pub enum Command<'a> {
    Seal(SealOrder<'a>),
    House(HouseOrder<'a>),
    Audit(AuditOrder<'a>),
    /// The number of the sample.
    Sample(u64),
    /// The name of the script.
    Ceremony(&'a str),
    Claim(ClaimOrder<'a>),
    /// The kind of the sample's claim, and its number.
    ClaimSample { kind: Kind, number: u64 },
    /// A challenge that the auctioneer doesn't choose, or a share of one.
    Coin(CoinOrder<'a>),
}

/// The command of that first word, by the words behind it.
fn command_by(verb: Verb, words: &[String]) -> Option<Command<'_>>
    ensures value { option_map command_seen result ≡ command_by verb (map string_bytes words.now) }
    ensures limits { IfSome result IsCommand }
{
    let command = match verb {
        Verb::Seal => Command::Seal(seal_order(words)?),
        Verb::Announce | Verb::Submit | Verb::Prove | Verb::Answer | Verb::Show => {
            Command::House(house_order(verb, words)?)
        }
        Verb::Verify => Command::Audit(AuditOrder::Verify(verify_names(words)?)),
        Verb::Extract => Command::Audit(AuditOrder::Extract(extract_names(words)?)),
        Verb::Confront => Command::Audit(AuditOrder::Confront(confront_names(words)?)),
        Verb::Report => Command::Audit(AuditOrder::Report(name(words, 1)?)),
        Verb::Sample => Command::Sample(read_decimal(word(words, 1).as_bytes(), u64::MAX)?),
        Verb::Ceremony => Command::Ceremony(name(words, 1)?),
        Verb::ClaimVerify => Command::Claim(ClaimOrder::Verify(verify_names(words)?)),
        Verb::ClaimExtract => Command::Claim(ClaimOrder::Extract(extract_names(words)?)),
        Verb::ClaimSample => {
            let kind = kind_named(word(words, 1).as_bytes())?;
            let number = read_decimal(word(words, 2).as_bytes(), u64::MAX)?;
            Command::ClaimSample { kind, number }
        }
        Verb::CoinPart | Verb::CoinJoin | Verb::CoinBoard => {
            Command::Coin(coin_order(verb, words)?)
        }
    };
    Some(command)
}

/// The command that the words are: the first names it, and they are as many as it may have, each of
/// its form.
#[tactic(auto, unfolding(crate::specs::Commands::command_words))]
pub fn command_of(words: &[String]) -> Option<Command<'_>>
    ensures value { option_map command_seen result ≡ command_words (map string_bytes words.now) }
    ensures limits { IfSome result IsCommand }
{
    let CommandRow(_, verb, fewest, most, _) = *row_of(word(words, 0))?;
    if words.len() < fewest || most < words.len() {
        return None;
    }
    let command = command_by(verb, words);
    command
}

/// Whether words may ask the keeper of the house: whether their first is that of a command which
/// does. What it is false of asks no keeper.
#[tactic(auto, using(crate::proofs::Asking::asks_none))]
pub fn may_ask_house(words: &[String]) -> bool
    ensures first { result ≡ first_asks (map string_bytes words.now) }
    ensures none { IsFalse result → AsksNoKeeper (command_words (map string_bytes words.now)) }
{
    match row_of(word(words, 0)) {
        Some(CommandRow(.., asks_house)) => *asks_house,
        None => false,
    }
}

/// The command of the house that the words are.
#[tactic(auto, unfolding(crate::specs::Commands::house_words))]
pub fn house_order_of(words: &[String]) -> Option<HouseOrder<'_>>
    ensures value { option_map house_seen result ≡ house_words (map string_bytes words.now) }
    ensures limits { IfSome result IsHouseOrder }
{
    let command = command_of(words)?;
    match command {
        Command::House(order) => Some(order),
        _ => None,
    }
}
