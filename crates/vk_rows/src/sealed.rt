//! The rows of an auction's seals.

ghost use Rattle.std.specs.Prelude.{◌≡◌, ◌≤◌, List, [], map, IfOk, IsErrOf, OnOk};
ghost use Rattle.vk_seal.specs.Values.{IsSeal, IsSecret};
ghost use Rattle.vk_keeper.specs.Common.{IsAuction, with_last};
ghost use Rattle.vk_keeper.specs.declared.auction.Phase.TheVariants.{Taking};
ghost use Rattle.vk_keeper.specs.declared.auction.SealRow.{SealRow as AnySeal};
ghost use Rattle.vk_rows.specs.Columns.{IsStored, ShowSeals, ShowsSeal, seal_texts};
ghost use Rattle.vk_rows.specs.Refusals.{MissesNone};

use crate::columns::{number_at, text_at};
use crate::stored::read_texts;
use sqlite::Row;
use std::alloc::Global;
use vk_io::OutsideErr;
use vk_keeper::{Auction, SealRow};

/// The auction with the seals of these rows, which stand at the positions from 1 on. Errs where one
/// may not join.
pub fn with_seals(alloc: Global, mut auction: Auction, rows: &[Row]) -> Result<Auction, OutsideErr>
    requires auction { IsAuction auction }
    requires taking { auction.phase ≡ Taking }
    requires none { auction.seals ≡ [] }
    ensures shown { IfOk result (λ joined. ShowSeals 0 rows.now (map seal_texts joined.seals)) }
    ensures same { IfOk result (λ joined. joined ≡ record auction { seals = joined.seals }) }
    ensures right { IfOk result IsAuction }
    ensures exact { MissesNone (λ (seals : List AnySeal).
        IsAuction (record auction { seals = seals })
        × ShowSeals 0 rows.now (map seal_texts seals)) result }
{
    for row in rows {
        let position = auction.seals.len() + 1;
        let row = seal_row_from(alloc, row, position)?;
        join(&mut auction, row)?;
    }
    Ok(auction)
}

/// Puts a seal and its secret last. Errs where they may not join, and for want of memory.
fn join(auction: &mut Auction, row: SealRow) -> Result<(), OutsideErr>
    requires auction { IsAuction auction.old }
    requires seal { IsSeal row.seal }
    requires secret { IsSecret row.secret }
    ensures joined { OnOk result (auction.new ≡ with_last auction.old row) }
    ensures right { IsAuction auction.new }
    ensures exact { IsErrOf result OutsideErr.Failed → ¬ IsAuction (with_last auction.old row) }
{
    if auction.refusal(&row.seal, &row.secret).is_some() {
        return Err(OutsideErr::Failed);
    }
    auction.join(row)?;
    Ok(())
}

/// The seal of a row and its secret. Errs where the row isn't that of the position, or of another
/// seat.
fn seal_row_from(alloc: Global, row: &Row, position: usize) -> Result<SealRow, OutsideErr>
    requires { position ≤ 65 }
    ensures shown { IfOk result (λ kept. ShowsSeal row.now position (seal_texts kept)) }
    ensures right { IfOk result IsStored }
    ensures exact { MissesNone (λ (kept : AnySeal).
        IsStored kept × ShowsSeal row.now position (seal_texts kept)) result }
{
    let stands_at = number_at(row, 0)?;
    let seat = number_at(row, 1)?;
    let kept = read_texts(alloc, text_at(row, 2)?, text_at(row, 3)?)?;
    if stands_at as usize != position || seat != u32::from(kept.seal.seat) {
        return Err(OutsideErr::Failed);
    }
    Ok(kept)
}
