//! Rows as an auction, where they are one.

ghost use Rattle.std.specs.Prelude.{◌≡◌, Option, IfOk, IfSome};
ghost use Rattle.vk_keeper.specs.Common.{IsAuction, IsKeptUnder};
ghost use Rattle.vk_keeper.specs.declared.auction.Auction.{Auction as AnyAuction};
ghost use Rattle.vk_rows.specs.Columns.{ShowFound, ShowsWhole};
ghost use Rattle.vk_rows.specs.Refusals.{MissesNone};

use crate::heads::{in_phase, phase_from, taking_from};
use crate::sealed::with_seals;
use sqlite::Row;
use std::alloc::Global;
use vk_io::OutsideErr;
use vk_keeper::Auction;

/// What stands under that id, by its rows: the auction that they are, or none where there are no
/// rows. Errs where they are neither, and for want of memory.
pub fn found_in(
    alloc: Global,
    id: &[u8; 16],
    heads: &[Row],
    terms: &[Row],
    seals: &[Row],
) -> Result<Option<Auction>, OutsideErr>
    ensures id { IfOk result (λ found. IfSome found (λ auction. auction.id ≡ id.now)) }
    ensures right { IfOk result (λ found. IfSome found IsAuction) }
    ensures shown { IfOk result (ShowFound heads.now terms.now seals.now) }
    ensures exact { MissesNone (λ (found : Option AnyAuction). IfSome found (IsKeptUnder id.now)
        × ShowFound heads.now terms.now seals.now found) result }
{
    match (heads, terms) {
        ([], []) if seals.is_empty() => Ok(None),
        ([head], [terms]) => {
            let auction = auction_from(alloc, id, head, terms, seals)?;
            Ok(Some(auction))
        }
        _ => Err(OutsideErr::Failed),
    }
}

/// The auction of that id that the rows are: its own row, that of its terms, and those of its seals
/// by their positions. Errs where they aren't one, and for want of memory.
fn auction_from(
    alloc: Global,
    id: &[u8; 16],
    head: &Row,
    terms: &Row,
    seals: &[Row],
) -> Result<Auction, OutsideErr>
    ensures id { IfOk result (λ auction. auction.id ≡ id.now) }
    ensures shown { IfOk result (ShowsWhole head.now terms.now seals.now) }
    ensures right { IfOk result IsAuction }
    ensures exact { MissesNone (λ (auction : AnyAuction). IsKeptUnder id.now auction
        × ShowsWhole head.now terms.now seals.now auction) result }
{
    let taking = taking_from(alloc, id, head, terms)?;
    let phase = phase_from(alloc, head)?;
    let joined = with_seals(alloc, taking, seals)?;
    let auction = in_phase(joined, phase).ok_or(OutsideErr::Failed)?;
    Ok(auction)
}
