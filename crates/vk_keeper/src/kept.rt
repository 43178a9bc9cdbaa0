ghost use Rattle.std.specs.Prelude.{◌≡◌, ◌≢◌, ℕ, ◌<◌, length, slice_index_or, IfSome, IfNone, IfOk, OnOk, OnErr, None, Some};
ghost use Rattle.std.specs.List.{All};
ghost use Rattle.std.specs.FinMap as map;
ghost use Rattle.vk_keeper.specs.Auctions.{IsAuction};
ghost use Rattle.vk_keeper.specs.Kept.{AreKept, ledger_in};
ghost use Rattle.vk_keeper.specs.declared.auction.Auction.{Auction};

use crate::auction::Auction;
use std::alloc::Global;
use vk_residue::NoMemory;

/// The place of the auction of that id. None where there is none.
fn place_of(auctions: &[Auction], id: &[u8; 16]) -> Option<usize>
    ensures absent { IfNone result (map.get (ledger_in auctions.now) id.now ≡ None) }
    ensures others { IfNone result (All (λ auction. auction.id ≢ id.now) auctions.now) }
    ensures within { IfSome result (λ i. i < length auctions.now) }
    ensures before { IfSome result
        (λ i. (k : ℕ) (d : Auction) → k < i → (slice_index_or auctions.now k d).id ≢ id.now) }
    ensures id { IfSome result
        (λ i. (d : Auction) → (slice_index_or auctions.now i d).id ≡ id.now) }
    ensures found { IfSome result
        (λ i. (d : Auction) → map.get (ledger_in auctions.now) id.now
        ≡ Some (slice_index_or auctions.now i d)) }
{
    for (i, auction) in auctions.iter().enumerate() {
        if *id == auction.id {
            return Some(i);
        }
    }
    None
}

/// A copy of the auction of that id. None where there is none. Errs for want of memory alone.
pub fn copy_of(
    alloc: Global,
    auctions: &[Auction],
    id: &[u8; 16],
) -> Result<Option<Auction>, NoMemory>
    requires { All IsAuction auctions.now }
    ensures answer { IfOk result (λ found. found ≡ map.get (ledger_in auctions.now) id.now) }
    ensures id { IfOk result (λ found. IfSome found (λ auction. auction.id ≡ id.now)) }
    ensures right { IfOk result (λ found. IfSome found IsAuction) }
{
    match place_of(auctions, id) {
        Some(i) => {
            let copy = auctions[i].copy(alloc)?;
            Ok(Some(copy))
        }
        None => Ok(None),
    }
}

/// Keeps the auction in place of the one of its id, or as one more. Errs for want of memory alone,
/// and then nothing changed.
pub fn keep(auctions: &mut Vec<Auction>, auction: Auction) -> Result<(), NoMemory>
    requires kept { AreKept auctions.old.items }
    requires right { IsAuction auction }
    ensures put { OnOk result (ledger_in auctions.new.items
        ≡ map.insert (ledger_in auctions.old.items) auction.id auction) }
    ensures refused { OnErr result (ledger_in auctions.new.items ≡ ledger_in auctions.old.items) }
    ensures kept { AreKept auctions.new.items }
{
    match place_of(auctions, &auction.id) {
        Some(i) => {
            auctions[i] = auction;
            Ok(())
        }
        None => {
            auctions.push(auction)?;
            Ok(())
        }
    }
}
