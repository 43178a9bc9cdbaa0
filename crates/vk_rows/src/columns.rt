//! The columns of a row, one by one, each by its type, length and range.

ghost use Rattle.std.specs.Prelude.{◌≡◌, ℕ, ◌<◌, ◌^◌, ℤ, List, Option, None, pos, IfOk, IfSome};
ghost use Rattle.sqlite.specs.Value.{owned};
ghost use Rattle.sqlite.specs.declared.types.Value.TheVariants.{Int, Text, Blob};
ghost use Rattle.vk_commit.specs.Values.{AreBytes};
ghost use Rattle.vk_reply.specs.declared.challenge.Challenge.{Challenge as AnyChallenge};
ghost use Rattle.vk_reply.specs.Texts.{bits_text};
ghost use Rattle.vk_reply.specs.Values.{IsChallenge};
ghost use Rattle.vk_rows.specs.Columns.{bits_value, column, or_null};
ghost use Rattle.vk_rows.specs.Refusals.{MissesNone};

use crate::refusals::refused_text;
use sqlite::Row;
use sqlite::types::ValueRef;
use std::alloc::Global;
use vk_io::OutsideErr;
use vk_reply::{Challenge, bits_of};

/// The value of a column, and NULL where the row has no such column.
pub fn value_at(row: &Row, at: usize) -> ValueRef<'_>
    ensures { owned result ≡ column row.now at }
{
    match row.get_ref(at) {
        Ok(value) => value,
        Err(_) => ValueRef::Null,
    }
}

/// A whole number.
pub fn count_at(row: &Row, at: usize) -> Result<i64, OutsideErr>
    ensures value { IfOk result (λ count. column row.now at ≡ Int count) }
    ensures exact { MissesNone (λ (count : ℤ). column row.now at ≡ Int count) result }
{
    match value_at(row, at) {
        ValueRef::Int(count) => Ok(count),
        _ => Err(OutsideErr::Failed),
    }
}

/// A whole number below 2^32.
pub fn number_at(row: &Row, at: usize) -> Result<u32, OutsideErr>
    ensures value { IfOk result (λ number. column row.now at ≡ Int (pos number)) }
    ensures exact { MissesNone
        (λ (number : ℕ). (number < 2 ^ 32) × (column row.now at ≡ Int (pos number))) result }
{
    let count = count_at(row, at)?;
    let number = u32::try_from(count).ok().ok_or(OutsideErr::Failed)?;
    Ok(number)
}

/// A whole number that is at least 0.
pub fn amount_at(row: &Row, at: usize) -> Result<u64, OutsideErr>
    ensures value { IfOk result (λ amount. column row.now at ≡ Int (pos amount)) }
    ensures exact { MissesNone (λ (amount : ℕ). column row.now at ≡ Int (pos amount)) result }
{
    let count = count_at(row, at)?;
    let amount = u64::try_from(count).ok().ok_or(OutsideErr::Failed)?;
    Ok(amount)
}

/// A text, as its bytes.
pub fn text_at(row: &Row, at: usize) -> Result<&[u8], OutsideErr>
    ensures value { IfOk result (λ text. column row.now at ≡ Text text.now) }
    ensures exact { MissesNone (λ (text : List ℕ). column row.now at ≡ Text text) result }
{
    match value_at(row, at) {
        ValueRef::Text(text) => Ok(text),
        _ => Err(OutsideErr::Failed),
    }
}

/// A seed, or none where the column is NULL.
pub fn seed_at(row: &Row, at: usize) -> Result<Option<[u8; 32]>, OutsideErr>
    ensures value { IfOk result (λ seed. column row.now at ≡ or_null Blob seed) }
    ensures right { IfOk result (λ seed. IfSome seed (AreBytes 32)) }
    ensures exact { MissesNone (λ (seed : Option (List ℕ)).
        IfSome seed (AreBytes 32) × (column row.now at ≡ or_null Blob seed)) result }
{
    match value_at(row, at) {
        ValueRef::Null => Ok(None),
        ValueRef::Blob(bytes) => {
            let seed = seed_of(bytes).ok_or(OutsideErr::Failed)?;
            Ok(Some(seed))
        }
        _ => Err(OutsideErr::Failed),
    }
}

/// 32 bytes as a seed.
fn seed_of(bytes: &[u8]) -> Option<[u8; 32]>
    ensures value { IfSome result (λ seed. seed ≡ bytes.now) }
    ensures right { IfSome result (AreBytes 32) }
    ensures exact { result ≡ None → ¬ AreBytes 32 bytes.now }
{
    if bytes.len() != 32 {
        return None;
    }
    let mut seed = [0; 32];
    seed.copy_from_slice(bytes);
    Some(seed)
}

/// A challenge by its characters, or none where the column is NULL.
pub fn challenge_at(alloc: Global, row: &Row, at: usize) -> Result<Option<Challenge>, OutsideErr>
    ensures value { IfOk result (λ challenge. column row.now at ≡ or_null bits_value challenge) }
    ensures right { IfOk result (λ challenge. IfSome challenge IsChallenge) }
    ensures exact { MissesNone (λ (challenge : Option AnyChallenge).
        IfSome challenge IsChallenge × (column row.now at ≡ or_null bits_value challenge)) result }
{
    match value_at(row, at) {
        ValueRef::Null => Ok(None),
        ValueRef::Text(text) => {
            let challenge = challenge_of(alloc, text)?;
            Ok(Some(challenge))
        }
        _ => Err(OutsideErr::Failed),
    }
}

/// The challenge of 1 to 64 characters `0` and `1`.
fn challenge_of(alloc: Global, text: &[u8]) -> Result<Challenge, OutsideErr>
    ensures value { IfOk result (λ challenge. text.now ≡ bits_text challenge.bits) }
    ensures right { IfOk result IsChallenge }
    ensures exact { MissesNone (λ (challenge : AnyChallenge).
        IsChallenge challenge × (text.now ≡ bits_text challenge.bits)) result }
{
    let bits = bits_of(alloc, text).map_err(refused_text)?;
    let bits = bits.ok_or(OutsideErr::Failed)?;
    Ok(Challenge { bits })
}
