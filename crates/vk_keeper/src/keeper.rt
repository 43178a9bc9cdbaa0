ghost use Rattle.std.specs.Prelude.{◌≡◌, ℕ, List, Option, Result, IfSome, IfOk};
ghost use Rattle.std.specs.FinMap as map;
ghost use Rattle.vk_io.specs.declared.errors.OutsideErr.{OutsideErr};
ghost use Rattle.vk_io.specs.Faults.{Causes};
ghost use Rattle.vk_io.specs.Files.{Modelled};
ghost use Rattle.vk_keeper.specs.declared.auction.Auction.{Auction};
ghost use Rattle.vk_keeper.specs.Auctions.{IsAuction};
ghost use Rattle.vk_keeper.specs.Ledgers.{Ledger, IsLedger, Keeps};
ghost use Rattle.vk_keeper.specs.Turns.{Turns, AfterGet, AfterPut};

use crate::auction::Auction;
use vk_io::OutsideErr;

/// Auctions under their ids. A keeper that is modelled has a `ledger`; of one that isn't only which
/// auctions it answers and its count are known. No call changes whether it is modelled.
pub trait Keeper {
    /// The auctions, where they are modelled.
    ghost ledger: { Self → Option Ledger };

    /// How many faults of the outside were met. It never falls.
    ghost faults: { Self → ℕ };

    /// How many calls were made, and which of them was the last `get`.
    ghost turns: { Self → Turns };

    /// Whether `get` of that id may answer so, and leave the keeper like this.
    ghost get_gives: { Self → List ℕ → Result (Option Auction) OutsideErr → Self → Type 0 };

    /// The auction of that id. None where none is kept under it.
    fn get(&mut self, id: &[u8; 16]) -> Result<Option<Auction>, OutsideErr>
        ensures answer { IfSome (ledger self.old)
            (λ kept. IfOk result (λ found. found ≡ map.get kept id.now)) }
        ensures id { IfOk result (λ found. IfSome found (λ auction. auction.id ≡ id.now)) }
        ensures right { IfOk result (λ found. IfSome found IsAuction) }
        ensures gave { get_gives self.old id.now result self.new }
        ensures ledger { IfSome (ledger self.old) IsLedger }
        ensures kept { ledger self.new ≡ ledger self.old }
        ensures turn { AfterGet (turns self.old) (turns self.new) }
        ensures causes { Causes OutsideErr.Failed result (faults self.old) (faults self.new) };

    /// Keeps the auction under its id, in place of the one that was kept there. Refused, the ledger
    /// is as before.
    fn put(&mut self, auction: Auction) -> Result<(), OutsideErr>
        requires { IsAuction auction }
        ensures ledger { IfSome (ledger self.old) IsLedger }
        ensures put { Modelled (Keeps auction result) (ledger self.old) (ledger self.new) }
        ensures turn { AfterPut (turns self.old) (turns self.new) }
        ensures causes { Causes OutsideErr.Failed result (faults self.old) (faults self.new) };
}
