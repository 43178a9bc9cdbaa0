//! Keeps the seals of an auction in the store.

ghost use Rattle.std.specs.Prelude.{◌≡◌, ◌+◌, ◌≤◌, pos, [], ◌∷◌, length};
ghost use Rattle.sqlite.specs.declared.types.Value.TheVariants.{Int, Blob};
ghost use Rattle.vk_rows.specs.Columns.{seal_row};
ghost use Rattle.vk_keeper_sql.specs.Statements.{drop_seals, keep_seal};
ghost use Rattle.vk_keeper_sql.specs.Transactions.{RunsAllInside, RunsInside, WritesInside};
ghost use Rattle.vk_keeper_sql.specs.Unkept.{StopsSeals};
ghost use Rattle.vk_keeper_sql.specs.Writing.{WritesSeals, adding};

use crate::statements::{SEALS, rows_under, run};
use sqlite::types::ValueRef;
use sqlite::{Alter, Transaction};
use vk_io::OutsideErr;
use vk_rows::{SealTexts, count_standing};

const DROP_SEALS: &str = "DELETE FROM seal WHERE id = ?1 AND position NOT BETWEEN 1 AND ?2";

const KEEP_SEAL: &str =
    "INSERT INTO seal (id, position, seat, seal, secret) VALUES (?1, ?2, ?3, ?4, ?5)";

/// Writes the rows of the seals. Those that stand from the first position on as they are to be are
/// left alone, and all others are written anew.
pub fn write_seals<S: Alter>(
    transaction: &mut Transaction<'_, S>,
    id: &[u8; 16],
    seals: &[SealTexts],
) -> Result<(), OutsideErr>
    requires { length seals.now ≤ 64 }
    ensures same_reference { transaction.new.conn.ghost_name ≡ transaction.old.conn.ghost_name }
    ensures works { WritesInside S.Store (WritesSeals S.Store id.now seals.now)
        (StopsSeals S.Store id.now seals.now)
        transaction.old.conn.now transaction.new.conn.now result }
{
    let held = rows_under(transaction, SEALS, id)?;
    let standing = count_standing(held.as_slice(), seals);
    clear_seals(transaction, id, standing as u32)?;
    let (_, more) = seals.split_at(standing);
    add_seals(transaction, id, standing as u32, more)?;
    Ok(())
}

/// Drops the rows of the seals but for so many from the first position on.
#[tactic(auto, unfolding(crate::specs::Statements::drop_seals))]
fn clear_seals<S: Alter>(
    transaction: &mut Transaction<'_, S>,
    id: &[u8; 16],
    standing: u32,
) -> Result<(), OutsideErr>
    ensures same_reference { transaction.new.conn.ghost_name ≡ transaction.old.conn.ghost_name }
    ensures works { RunsInside S.Store drop_seals (Blob id.now ∷ Int (pos standing) ∷ [])
        transaction.old.conn.now transaction.new.conn.now result }
{
    let columns = [
        ValueRef::Blob(id.as_slice()),
        ValueRef::Int(i64::from(standing)),
    ];
    let ran = run(transaction, DROP_SEALS, &columns);
    ran
}

/// Writes the rows of these seals at the positions behind so many.
fn add_seals<S: Alter>(
    transaction: &mut Transaction<'_, S>,
    id: &[u8; 16],
    before: u32,
    seals: &[SealTexts],
) -> Result<(), OutsideErr>
    requires { before + length seals.now ≤ 64 }
    ensures same_reference { transaction.new.conn.ghost_name ≡ transaction.old.conn.ghost_name }
    ensures works { RunsAllInside S.Store (adding id.now before seals.now)
        transaction.old.conn.now transaction.new.conn.now result }
{
    for (i, seal) in seals.iter().enumerate() {
        add_seal(transaction, id, before + i as u32 + 1, seal)?;
    }
    Ok(())
}

/// Writes the row of one seal.
#[tactic(auto, unfolding(crate::specs::Statements::keep_seal))]
fn add_seal<'a, S: Alter>(
    transaction: &mut Transaction<'_, S>,
    id: &'a [u8; 16],
    position: u32,
    seal: &'a SealTexts,
) -> Result<(), OutsideErr>
    ensures same_reference { transaction.new.conn.ghost_name ≡ transaction.old.conn.ghost_name }
    ensures works { RunsInside S.Store keep_seal (seal_row id.now position seal.now)
        transaction.old.conn.now transaction.new.conn.now result }
{
    let columns = [
        ValueRef::Blob(id.as_slice()),
        ValueRef::Int(i64::from(position)),
        ValueRef::Int(i64::from(seal.seat)),
        ValueRef::Text(seal.seal.as_slice()),
        ValueRef::Text(seal.secret.as_slice()),
    ];
    let ran = run(transaction, KEEP_SEAL, &columns);
    ran
}
