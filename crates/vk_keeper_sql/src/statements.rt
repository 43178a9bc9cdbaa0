//! What is asked of the tables and run on them, within a transaction.

ghost use Rattle.std.specs.Prelude.{◌≡◌, [], ◌∷◌};
ghost use Rattle.sqlite.specs.Values.{bound};
ghost use Rattle.sqlite.specs.declared.types.Value.TheVariants.{Blob};
ghost use Rattle.vk_keeper_sql.specs.Transactions.{Answers, RefusesQuery, RunsInside, WorksInside};

use sqlite::types::ValueRef;
use sqlite::{Alter, Row, Transaction};
use vk_io::OutsideErr;
use vk_rows::refused_statement;

/// The row of an auction. A second one is asked for, so that it is seen.
pub const AUCTION: &str =
    "SELECT width, lanes, phase, seed, bits FROM auction WHERE id = ?1 LIMIT 2";

/// Its terms, likewise.
pub const TERMS: &str = "SELECT version, reserve FROM terms WHERE id = ?1 LIMIT 2";

/// The rows of its seals in order. One more than an auction may have is asked for, so that it is
/// seen.
pub const SEALS: &str =
    "SELECT position, seat, seal, secret FROM seal WHERE id = ?1 ORDER BY position LIMIT 65";

/// Puts the terms of an auction in place of those of its id.
pub const KEEP_TERMS: &str =
    "INSERT OR REPLACE INTO terms (id, version, reserve) VALUES (?1, ?2, ?3)";

/// The rows that such a query finds under an id.
pub fn rows_under<S: Alter>(
    transaction: &mut Transaction<'_, S>,
    query: &str,
    id: &[u8; 16],
) -> Result<Vec<Row>, OutsideErr>
    ensures same_reference { transaction.new.conn.ghost_name ≡ transaction.old.conn.ghost_name }
    ensures works { WorksInside S.Store
        (λ rows old new. Answers S.Store query.now (Blob id.now ∷ []) old new rows.items)
        (RefusesQuery S.Store query.now (Blob id.now ∷ []))
        transaction.old.conn.now transaction.new.conn.now result }
{
    let rows = ask(transaction, query, &[ValueRef::Blob(id.as_slice())])?;
    Ok(rows)
}

/// The rows that a query finds.
pub fn ask<S: Alter>(
    transaction: &mut Transaction<'_, S>,
    query: &str,
    columns: &[ValueRef<'_>],
) -> Result<Vec<Row>, OutsideErr>
    ensures same_reference { transaction.new.conn.ghost_name ≡ transaction.old.conn.ghost_name }
    ensures works { WorksInside S.Store
        (λ rows old new. Answers S.Store query.now (bound columns.now) old new rows.items)
        (RefusesQuery S.Store query.now (bound columns.now))
        transaction.old.conn.now transaction.new.conn.now result }
{
    match transaction.query_all(query, columns) {
        Ok(rows) => Ok(rows),
        Err(refusal) => Err(refused_statement(refusal)),
    }
}

/// Runs a statement.
pub fn run<S: Alter>(
    transaction: &mut Transaction<'_, S>,
    statement: &str,
    columns: &[ValueRef<'_>],
) -> Result<(), OutsideErr>
    ensures same_reference { transaction.new.conn.ghost_name ≡ transaction.old.conn.ghost_name }
    ensures works { RunsInside S.Store statement.now (bound columns.now)
        transaction.old.conn.now transaction.new.conn.now result }
{
    match transaction.execute(statement, columns) {
        Ok(_) => Ok(()),
        Err(error) => Err(refused_statement(error)),
    }
}
