//! A command that makes a challenge without the auctioneer, over a shelf of files.

ghost use Rattle.vk_words.specs.Coins.{IsCoinOrder, coin_seen};
ghost use Rattle.vk_coins.specs.Deeds.{coin_on, deed_on};
ghost use Rattle.vk_effect.specs.Ends.{Acts};
ghost use Rattle.vk_effect.specs.Effects.{stores};
ghost use Rattle.vk_keeper.specs.Ledgers.{Ledger};
ghost use Rattle.vk_lines.specs.Common.{Causes, OnlyReads};
ghost use Rattle.std.specs.Prelude.{◌≡◌, IfOk, IfSome, Option};

use crate::boards::derive_deed;
use crate::drawing::part;
use crate::joining::{join_deed, named_coin};
use std::alloc::Global;
use vk_audit::say_report_fault;
use vk_coin::board_challenge;
use vk_effect::{Deed, Said};
use vk_io::{OutsideErr, Shelf};
use vk_words::CoinOrder;

/// Makes a challenge without the auctioneer, or a share of one, all but the printing. No file is
/// made before all tests of the command have passed.
pub fn make_challenge<S: Shelf>(
    alloc: Global,
    shelf: &mut S,
    order: &CoinOrder<'_>,
) -> Result<Said, OutsideErr>
    requires { IsCoinOrder order.now }
    ensures acts { (ledger : Option Ledger)
        → IfSome (coin_on (S.held shelf.old) ledger (coin_seen order.now))
        (λ effect. Acts result effect (stores (S.held shelf.old) ledger)
        (stores (S.held shelf.new) ledger)) }
    ensures causes { Causes OutsideErr.Failed result (S.Shelf.faults shelf.old)
        (S.Shelf.faults shelf.new) }
{
    let deed = deed(alloc, shelf, order)?;
    let said = deed.carry_out(alloc, shelf)?;
    Ok(said)
}

/// What is to be said, and written before.
fn deed<S: Shelf>(alloc: Global, shelf: &mut S, order: &CoinOrder<'_>) -> Result<Deed, OutsideErr>
    requires { IsCoinOrder order.now }
    ensures modelled { IfSome (deed_on (S.held shelf.old) (coin_seen order.now))
        (λ expected. IfOk result (λ deed. deed ≡ expected)) }
    ensures shelf { OnlyReads S.held S.Shelf.faults OutsideErr.Failed result shelf.old shelf.new }
{
    match order {
        CoinOrder::Part(order) => {
            let deed = part(alloc, order)?;
            Ok(deed)
        }
        CoinOrder::Join(names) => {
            let deed = match named_coin(alloc, shelf, names.from) {
                Ok(coin) => join_deed(alloc, names, &coin)?,
                Err(unread) => Deed::says(alloc, unread.said_or_stopped()?),
            };
            Ok(deed)
        }
        CoinOrder::Board(names) => {
            let deed = match board_challenge(alloc, shelf, names.from) {
                Ok(challenge) => derive_deed(alloc, names, &challenge)?,
                Err(fault) => Deed::says(alloc, say_report_fault(alloc, names.from, fault)?),
            };
            Ok(deed)
        }
    }
}
