//! Finds an auction in the store.

ghost use Rattle.std.specs.Prelude.{◌≡◌, true, false, IfOk, IfSome, IsErrOf};
ghost use Rattle.sqlite.specs.Held.{state};
ghost use Rattle.sqlite.specs.State.{HasCleanDisk};
ghost use Rattle.vk_keeper.specs.Auctions.{IsAuction};
ghost use Rattle.vk_keeper_sql.specs.Reading.{FailsToRead, Finds, FindsNothing, Reads, ReadsFrom};
ghost use Rattle.vk_keeper_sql.specs.Transactions.{ChangesNothing, CommitsNothing, WorksInside};

use crate::statements::{AUCTION, SEALS, TERMS, rows_under};
use sqlite::{Alter, Connection, Row, Transaction};
use std::alloc::Global;
use vk_io::OutsideErr;
use vk_keeper::Auction;
use vk_rows::found_in;

/// The auction of that id, read in a transaction that is rolled back. None where the store has no
/// row of it. Errs where its rows aren't an auction, where a query is refused, and for want of
/// memory.
pub fn find<S: Alter>(
    alloc: Global,
    connection: &mut Connection<S>,
    id: &[u8; 16],
) -> Result<Option<Auction>, OutsideErr>
    ensures id { IfOk result (λ found. IfSome found (λ auction. auction.id ≡ id.now)) }
    ensures right { IfOk result (λ found. IfSome found IsAuction) }
    ensures shown { HasCleanDisk (state S.Store connection.new)
        → IfOk result (Finds S.Store id.now connection.old) }
    ensures refused { HasCleanDisk (state S.Store connection.new)
        → IsErrOf result OutsideErr.Failed → FindsNothing S.Store id.now connection.old }
    ensures crash { CommitsNothing (state S.Store connection.old) (state S.Store connection.new) }
    ensures kept { HasCleanDisk (state S.Store connection.new)
        → ChangesNothing (state S.Store connection.old) (state S.Store connection.new) }
{
    if !connection.is_autocommit() {
        return Err(OutsideErr::Failed);
    }
    let (heads, terms, seals) = rows_of(connection, id)?;
    let found = found_in(
        alloc,
        id,
        heads.as_slice(),
        terms.as_slice(),
        seals.as_slice(),
    )?;
    Ok(found)
}

/// The rows of an auction, of its terms and of its seals.
fn rows_of<S: Alter>(
    connection: &mut Connection<S>,
    id: &[u8; 16],
) -> Result<(Vec<Row>, Vec<Row>, Vec<Row>), OutsideErr>
    requires { connection.old.in_transaction ≡ false }
    ensures read { HasCleanDisk (state S.Store connection.new) → IfOk result (λ rows.
        Reads S.Store id.now connection.old rows.0.items rows.1.items rows.2.items) }
    ensures refused { HasCleanDisk (state S.Store connection.new)
        → IsErrOf result OutsideErr.Failed
        → FailsToRead S.Store id.now (record connection.old { in_transaction = true }) }
    ensures crash { CommitsNothing (state S.Store connection.old) (state S.Store connection.new) }
    ensures kept { HasCleanDisk (state S.Store connection.new)
        → ChangesNothing (state S.Store connection.old) (state S.Store connection.new) }
{
    let mut transaction = connection.transaction();
    let rows = rows_within(&mut transaction, id);
    rows
}

/// The same within a transaction.
fn rows_within<S: Alter>(
    transaction: &mut Transaction<'_, S>,
    id: &[u8; 16],
) -> Result<(Vec<Row>, Vec<Row>, Vec<Row>), OutsideErr>
    ensures same_reference { transaction.new.conn.ghost_name ≡ transaction.old.conn.ghost_name }
    ensures works { WorksInside S.Store (λ rows begun _.
        ReadsFrom S.Store id.now begun rows.0.items rows.1.items rows.2.items)
        (λ begun _ told. told ≡ OutsideErr.Failed → FailsToRead S.Store id.now begun)
        transaction.old.conn.now transaction.new.conn.now result }
{
    let heads = rows_under(transaction, AUCTION, id)?;
    let terms = rows_under(transaction, TERMS, id)?;
    let seals = rows_under(transaction, SEALS, id)?;
    Ok((heads, terms, seals))
}
