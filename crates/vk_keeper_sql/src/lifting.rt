//! Gives auctions that were kept before auctions had terms those of version 1.

ghost use Rattle.std.specs.Prelude.{◌≡◌};
ghost use Rattle.sqlite.specs.Order.{column};
ghost use Rattle.vk_keeper_sql.specs.Statements.{keep_terms};
ghost use Rattle.vk_keeper_sql.specs.Transactions.{RunsAllInside, RunsInside, WritesInside};
ghost use Rattle.vk_keeper_sql.specs.Opening.{LiftsTables, filling, first_terms};
ghost use Rattle.vk_keeper_sql.specs.Unopened.{StopsLifting};

use crate::statements::{KEEP_TERMS, ask, run};
use crate::tables::{MAKE_TERMS, VERSION};
use sqlite::types::ValueRef;
use sqlite::{Alter, Row, Transaction};
use vk_io::OutsideErr;
use vk_rows::value_at;

const IDS: &str = "SELECT id FROM auction";

const NEXT_NUMBER: &str = "UPDATE about SET version = ?1";

/// Makes the table of terms, puts those of version 1 with no reserve for each auction, and says the
/// version of the tables.
pub fn lift<S: Alter>(transaction: &mut Transaction<'_, S>) -> Result<(), OutsideErr>
    ensures same_reference { transaction.new.conn.ghost_name ≡ transaction.old.conn.ghost_name }
    ensures works { WritesInside S.Store (LiftsTables S.Store) (StopsLifting S.Store)
        transaction.old.conn.now transaction.new.conn.now result }
{
    run(transaction, MAKE_TERMS, &[])?;
    let ids = ask(transaction, IDS, &[])?;
    add_terms(transaction, ids.as_slice())?;
    run(transaction, NEXT_NUMBER, &[ValueRef::Int(VERSION)])?;
    Ok(())
}

/// Puts the terms for each of these ids.
fn add_terms<S: Alter>(transaction: &mut Transaction<'_, S>, ids: &[Row]) -> Result<(), OutsideErr>
    ensures same_reference { transaction.new.conn.ghost_name ≡ transaction.old.conn.ghost_name }
    ensures works { RunsAllInside S.Store (filling ids.now)
        transaction.old.conn.now transaction.new.conn.now result }
{
    for row in ids {
        add_first_terms(transaction, row)?;
    }
    Ok(())
}

/// Puts the terms for the id of this row.
#[tactic(auto, unfolding(crate::specs::Statements::keep_terms))]
fn add_first_terms<S: Alter>(
    transaction: &mut Transaction<'_, S>,
    row: &Row,
) -> Result<(), OutsideErr>
    ensures same_reference { transaction.new.conn.ghost_name ≡ transaction.old.conn.ghost_name }
    ensures works { RunsInside S.Store keep_terms (first_terms (column row.now 0))
        transaction.old.conn.now transaction.new.conn.now result }
{
    let columns = [value_at(row, 0), ValueRef::Int(1), ValueRef::Int(0)];
    let ran = run(transaction, KEEP_TERMS, &columns);
    ran
}
