//! The tables of a store as it is opened, and the number of their version.

ghost use Rattle.std.specs.Prelude.{◌≡◌, false, [], ◌∷◌, Err, IfErr, IsTrue};
ghost use Rattle.sqlite.specs.Held.{state};
ghost use Rattle.sqlite.specs.State.{HasCleanDisk};
ghost use Rattle.sqlite.specs.Order.{column};
ghost use Rattle.vk_keeper_sql.specs.Layouts.{HasLayout};
ghost use Rattle.vk_keeper_sql.specs.Opening.{IsNumbered, Prepares, PreparesFrom, making};
ghost use Rattle.vk_keeper_sql.specs.Transactions.{CommitsAtOnce, RunsAllInside, WorksInside, WritesInside};
ghost use Rattle.vk_keeper_sql.specs.Unopened.{IsRefusedFor, StopsCheck, StopsFrom, StopsNumber};
ghost use Rattle.vk_keeper_sql.specs.Versions.{int_of, number_by, number_of, version_of};

use crate::errors::OpenErr;
use crate::layout::{Layout, layout_of};
use crate::lifting::lift;
use crate::statements::{ask, run};
use sqlite::types::ValueRef;
use sqlite::{Alter, Connection, Row, Transaction};
use vk_io::OutsideErr;
use vk_rows::refused_statement;

const MAKE_ABOUT: &str = "CREATE TABLE about (version INTEGER NOT NULL)";

const MAKE_AUCTIONS: &str =
    "CREATE TABLE auction (id BLOB PRIMARY KEY NOT NULL, width INTEGER NOT NULL, lanes INTEGER NOT NULL, phase INTEGER NOT NULL, seed BLOB, bits TEXT)";

const MAKE_SEALS: &str =
    "CREATE TABLE seal (id BLOB NOT NULL, position INTEGER NOT NULL, seat INTEGER NOT NULL, seal TEXT NOT NULL, secret TEXT NOT NULL, PRIMARY KEY (id, position), UNIQUE (id, seat))";

/// The table of what an auction has since stores of number 2: the version of its board, and its
/// reserve.
pub const MAKE_TERMS: &str =
    "CREATE TABLE terms (id BLOB PRIMARY KEY NOT NULL, version INTEGER NOT NULL, reserve INTEGER NOT NULL)";

const FIRST_NUMBER: &str = "INSERT INTO about (version) VALUES (?1)";

const NUMBER: &str = "SELECT (SELECT count(*) FROM about), version FROM about LIMIT 1";

/// The number of the version of these tables.
pub const VERSION: i64 = 2;

/// Makes the tables where the store has none, and gives those of the number 1 what they lack, in
/// one transaction. Errs where they are of another version, or aren't those of their number; where
/// a statement is refused; and in a transaction.
#[tactic(auto, using(crate::proofs::AtOnce::untouched_at_once))]
pub fn prepare<S: Alter>(connection: &mut Connection<S>) -> Result<(), OpenErr>
    ensures crash { CommitsAtOnce (Prepares S.Store connection.old)
        (state S.Store connection.old) (state S.Store connection.new) result }
    ensures causes { HasCleanDisk (state S.Store connection.new) → IfErr result
        (IsRefusedFor S.Store connection.old connection.new) }
    ensures inside { IsTrue connection.old.in_transaction
        → (result ≡ Err OpenErr.Refused) × (connection.new ≡ connection.old) }
{
    if !connection.is_autocommit() {
        return Err(OpenErr::Refused);
    }
    let layout = layout_of(connection.schema());
    prepare_at_once(connection, layout)?;
    Ok(())
}

/// The same of a store with these tables.
fn prepare_at_once<S: Alter>(connection: &mut Connection<S>, layout: Layout) -> Result<(), OpenErr>
    requires alone { connection.old.in_transaction ≡ false }
    requires layout { HasLayout layout connection.old.schema }
    ensures crash { CommitsAtOnce (Prepares S.Store connection.old)
        (state S.Store connection.old) (state S.Store connection.new) result }
    ensures causes { HasCleanDisk (state S.Store connection.new) → IfErr result
        (IsRefusedFor S.Store connection.old connection.new) }
{
    let mut transaction = connection.transaction();
    prepare_within(&mut transaction, layout)?;
    match transaction.commit() {
        Ok(()) => Ok(()),
        Err(error) => Err(OpenErr::from(refused_statement(error))),
    }
}

/// Makes or lifts the tables within a transaction.
fn prepare_within<S: Alter>(
    transaction: &mut Transaction<'_, S>,
    layout: Layout,
) -> Result<(), OpenErr>
    ensures same_reference { transaction.new.conn.ghost_name ≡ transaction.old.conn.ghost_name }
    ensures works { WritesInside S.Store (PreparesFrom S.Store layout)
        (λ old new refusal. StopsFrom S.Store old new refusal layout)
        transaction.old.conn.now transaction.new.conn.now result }
{
    match layout {
        Layout::Blank => make_tables(transaction)?,
        Layout::First => {
            check_number(transaction, 1)?;
            lift(transaction)?;
        }
        Layout::Second => check_number(transaction, 2)?,
        Layout::Other => {
            let _number = number_in(transaction)?;
            return Err(OpenErr::Refused);
        }
    }
    Ok(())
}

/// Errs unless the tables have that number.
fn check_number<S: Alter>(transaction: &mut Transaction<'_, S>, number: u32) -> Result<(), OpenErr>
    ensures same_reference { transaction.new.conn.ghost_name ≡ transaction.old.conn.ghost_name }
    ensures works { WorksInside S.Store (λ _. IsNumbered S.Store number) (StopsCheck S.Store number)
        transaction.old.conn.now transaction.new.conn.now result }
{
    if number_in(transaction)? != number {
        return Err(OpenErr::Refused);
    }
    Ok(())
}

/// The number of the tables. Errs where it is of another version.
fn number_in<S: Alter>(transaction: &mut Transaction<'_, S>) -> Result<u32, OpenErr>
    ensures same_reference { transaction.new.conn.ghost_name ≡ transaction.old.conn.ghost_name }
    ensures works { WorksInside S.Store (IsNumbered S.Store) (StopsNumber S.Store)
        transaction.old.conn.now transaction.new.conn.now result }
{
    let rows = ask(transaction, NUMBER, &[])?;
    let number = number_from(rows.as_slice())?;
    Ok(number)
}

/// The number that the table `about` shows. Errs unless it has one row, with the number 1 or 2.
fn number_from(rows: &[Row]) -> Result<u32, OpenErr>
    ensures { result ≡ number_of rows.now }
{
    let Some(row) = rows.first() else {
        return Err(OpenErr::Version { rows: 0, number: 0 });
    };
    let number = number_by(int_at(row, 0), int_at(row, 1))?;
    Ok(number)
}

/// The number by how many rows there are and what the first of them holds.
fn number_by(rows: Option<i64>, number: Option<i64>) -> Result<u32, OpenErr>
    ensures { result ≡ number_by rows number }
{
    match (rows, number) {
        (Some(rows), Some(number)) if rows >= 0 => {
            let number = version_of(rows as u64, number)?;
            Ok(number)
        }
        _ => Err(OpenErr::Refused),
    }
}

/// The integer in a column, where it is one.
fn int_at(row: &Row, at: usize) -> Option<i64>
    ensures { result ≡ int_of (column row.now at) }
{
    match row.get_ref(at) {
        Ok(ValueRef::Int(number)) => Some(number),
        Ok(_) => None,
        Err(_) => None,
    }
}

/// The number, where it is 1 or 2 and stands in one row.
fn version_of(rows: u64, number: i64) -> Result<u32, OpenErr>
    ensures { result ≡ version_of rows number }
{
    match (rows, number) {
        (1, 1) => Ok(1),
        (1, 2) => Ok(2),
        _ => Err(OpenErr::Version { rows, number }),
    }
}

/// Makes the four tables, and says their version.
fn make_tables<S: Alter>(transaction: &mut Transaction<'_, S>) -> Result<(), OutsideErr>
    ensures same_reference { transaction.new.conn.ghost_name ≡ transaction.old.conn.ghost_name }
    ensures works { RunsAllInside S.Store making
        transaction.old.conn.now transaction.new.conn.now result }
{
    run(transaction, MAKE_ABOUT, &[])?;
    run(transaction, MAKE_AUCTIONS, &[])?;
    run(transaction, MAKE_SEALS, &[])?;
    run(transaction, MAKE_TERMS, &[])?;
    run(transaction, FIRST_NUMBER, &[ValueRef::Int(VERSION)])?;
    Ok(())
}
