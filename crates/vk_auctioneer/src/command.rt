//! Whichever command of the house.

ghost use Rattle.std.specs.Prelude.{◌≡◌, IfSome, None};
ghost use Rattle.vk_words.specs.Common.{IsHouseOrder, house_seen, written_name_of};
ghost use Rattle.vk_auctioneer.specs.Answers.{AsksOnce};
ghost use Rattle.vk_auctioneer.specs.Common.{Acts, CausesTwo, KeepsAnswers, Modelled, stores};
ghost use Rattle.vk_auctioneer.specs.Effects.{house_effect};
ghost use Rattle.vk_auctioneer.specs.Leaving.{LeavesAsSaid};

use crate::publishing::{answer, prove};
use crate::standing::{announce, announce_reserve, show};
use crate::submitting::{RowNames, submit};
use std::alloc::Global;
use vk_effect::Said;
use vk_io::{OutsideErr, Shelf};
use vk_keeper::Keeper;
use vk_words::HouseOrder;

/// Does a command of the house over the shelf and the keeper, all but its printing. No file is made
/// before all tests of the command have passed and the keeper has kept what is to be kept.
pub fn house_command<S: Shelf, K: Keeper + Drop>(
    alloc: Global,
    shelf: &mut S,
    keeper: &mut K,
    order: &HouseOrder<'_>,
) -> Result<Said, OutsideErr>
    requires { IsHouseOrder order.now }
    ensures acts { IfSome (house_effect (S.held shelf.old) (K.ledger keeper.old)
        (house_seen order.now))
        (λ effect. Acts result effect (stores (S.held shelf.old) (K.ledger keeper.old))
        (stores (S.held shelf.new) (K.ledger keeper.new))) }

    // A command that writes no file leaves all that is held.
    ensures held { written_name_of (house_seen order.now) ≡ None
        → S.held shelf.new ≡ S.held shelf.old }

    // Where the files are modelled, and the keeper or not: a board or a reply is written with
    // status 0 and no other.
    ensures files { LeavesAsSaid (house_seen order.now) result (S.held shelf.old)
        (S.held shelf.new) }

    // Whatever its end, an auction that was answered is the same, and one that was proved has its
    // seed and its seals.
    ensures once { Modelled KeepsAnswers (K.ledger keeper.old) (K.ledger keeper.new) }
    ensures turns { AsksOnce (K.turns keeper.old) (K.turns keeper.new) }
    ensures causes { CausesTwo OutsideErr.Failed result (S.Shelf.faults shelf.old)
        (S.Shelf.faults shelf.new) (K.faults keeper.old) (K.faults keeper.new) }
{
    match order {
        HouseOrder::Announce { id, width, lanes } => {
            let said = announce(alloc, keeper, id, *width, *lanes);
            said
        }
        HouseOrder::AnnounceReserve {
            id,
            width,
            lanes,
            reserve,
        } => {
            let said = announce_reserve(alloc, keeper, id, *width, *lanes, *reserve);
            said
        }
        HouseOrder::Submit { id, seal, secret } => {
            let said = submit(alloc, shelf, keeper, id, RowNames { seal, secret });
            said
        }
        HouseOrder::Prove { id, seed, board } => {
            let said = prove(alloc, shelf, keeper, id, seed, board);
            said
        }
        HouseOrder::Answer {
            id,
            challenge,
            reply,
        } => {
            let said = answer(alloc, shelf, keeper, id, challenge, reply);
            said
        }
        HouseOrder::Show { id } => {
            let said = show(alloc, keeper, id);
            said
        }
    }
}
