//! Keeps an auction in the store.

ghost use Rattle.std.specs.Prelude.{◌≡◌, ◌<◌, ◌≤◌, ◌^◌, false, length, IfErr};
ghost use Rattle.sqlite.specs.Held.{state};
ghost use Rattle.sqlite.specs.State.{HasCleanDisk};
ghost use Rattle.sqlite.specs.Values.{bound};
ghost use Rattle.vk_keeper.specs.Auctions.{IsAuction};
ghost use Rattle.vk_rows.specs.Columns.{auction_row, bits_in, terms_row, texts_of};
ghost use Rattle.vk_keeper_sql.specs.Transactions.{CommitsAtOnce, WritesInside};
ghost use Rattle.vk_keeper_sql.specs.Unkept.{IsUnkeptFor, StopsWriting};
ghost use Rattle.vk_keeper_sql.specs.Writing.{Keeps, WritesAuction};

use crate::seals::write_seals;
use crate::statements::{KEEP_TERMS, run};
use sqlite::types::ValueRef;
use sqlite::{Alter, Connection, Transaction};
use std::alloc::Global;
use vk_io::OutsideErr;
use vk_keeper::{Auction, Phase};
use vk_rows::{Texts, refused_statement, texts_of};
use vk_seq::Seq;

const KEEP_AUCTION: &str =
    "INSERT OR REPLACE INTO auction (id, width, lanes, phase, seed, bits) VALUES (?1, ?2, ?3, ?4, ?5, ?6)";

/// Keeps the auction in place of what stands under its id, in one transaction. Errs in a
/// transaction, where a statement or the commit is refused, and for want of memory. Refused, nothing
/// is changed.
#[tactic(auto, using(crate::proofs::AtOnce::untouched_at_once))]
pub fn replace<S: Alter>(
    alloc: Global,
    connection: &mut Connection<S>,
    auction: &Auction,
) -> Result<(), OutsideErr>
    requires { IsAuction auction.now }
    ensures crash { CommitsAtOnce (Keeps S.Store auction.now connection.old)
        (state S.Store connection.old) (state S.Store connection.new) result }
    ensures refused { HasCleanDisk (state S.Store connection.new) → IfErr result
        (IsUnkeptFor S.Store auction.now connection.old connection.new) }
{
    if !connection.is_autocommit() {
        return Err(OutsideErr::Failed);
    }
    let texts = texts_of(alloc, auction)?;
    write_at_once(connection, auction, &texts)?;
    Ok(())
}

/// Writes the rows of an auction in one transaction.
fn write_at_once<S: Alter>(
    connection: &mut Connection<S>,
    auction: &Auction,
    texts: &Texts,
) -> Result<(), OutsideErr>
    requires texts { texts.now ≡ texts_of auction.now }
    requires alone { connection.old.in_transaction ≡ false }
    requires few { length auction.now.seals ≤ 64 }
    requires small { auction.now.reserve < 2 ^ 40 }
    ensures crash { CommitsAtOnce (Keeps S.Store auction.now connection.old)
        (state S.Store connection.old) (state S.Store connection.new) result }
    ensures refused { HasCleanDisk (state S.Store connection.new) → IfErr result
        (IsUnkeptFor S.Store auction.now connection.old connection.new) }
{
    let mut transaction = connection.transaction();
    write_rows(&mut transaction, auction, texts)?;
    match transaction.commit() {
        Ok(()) => Ok(()),
        Err(error) => Err(refused_statement(error)),
    }
}

/// Writes the rows of an auction.
fn write_rows<S: Alter>(
    transaction: &mut Transaction<'_, S>,
    auction: &Auction,
    texts: &Texts,
) -> Result<(), OutsideErr>
    requires texts { texts.now ≡ texts_of auction.now }
    requires few { length auction.now.seals ≤ 64 }
    requires small { auction.now.reserve < 2 ^ 40 }
    ensures same_reference { transaction.new.conn.ghost_name ≡ transaction.old.conn.ghost_name }
    ensures works { WritesInside S.Store (WritesAuction S.Store auction.now)
        (StopsWriting S.Store auction.now)
        transaction.old.conn.now transaction.new.conn.now result }
{
    let row = auction_columns(auction, &texts.bits);
    run(transaction, KEEP_AUCTION, &row)?;
    let terms = terms_columns(auction);
    run(transaction, KEEP_TERMS, &terms)?;
    write_seals(transaction, &auction.id, texts.seals.as_slice())?;
    Ok(())
}

/// The row of an auction.
fn auction_columns<'a>(auction: &'a Auction, bits: &'a Option<Seq<u8>>) -> [ValueRef<'a>; 6]
    requires { bits.now ≡ bits_in auction.now.phase }
    ensures { bound result ≡ auction_row auction.now }
{
    let (number, seed) = match &auction.phase {
        Phase::Taking => (0, ValueRef::Null),
        Phase::Proved { seed } => (1, ValueRef::Blob(seed.as_slice())),
        Phase::Answered { seed, .. } => (2, ValueRef::Blob(seed.as_slice())),
    };
    let bits = match bits {
        Some(text) => ValueRef::Text(text.as_slice()),
        None => ValueRef::Null,
    };
    [
        ValueRef::Blob(auction.id.as_slice()),
        ValueRef::Int(i64::from(auction.width)),
        ValueRef::Int(i64::from(auction.lanes)),
        ValueRef::Int(number),
        seed,
        bits,
    ]
}

/// The row of an auction's terms.
fn terms_columns(auction: &Auction) -> [ValueRef<'_>; 3]
    requires { auction.now.reserve < 2 ^ 40 }
    ensures { bound result ≡ terms_row auction.now }
{
    [
        ValueRef::Blob(auction.id.as_slice()),
        ValueRef::Int(i64::from(auction.version)),
        ValueRef::Int(auction.reserve as i64),
    ]
}
