//! Which rows of an auction's seals stand as they are to be.

ghost use Rattle.std.specs.Prelude.{◌≤◌, length, take, IsTrue};
ghost use Rattle.vk_rows.specs.Columns.{ShowSeals, ShowsSeal};

use crate::columns::{number_at, text_at};
use crate::texts::SealTexts;
use sqlite::Row;

/// How many rows from the first on are those of the seals at the same places.
pub fn count_standing(held: &[Row], seals: &[SealTexts]) -> usize
    requires { length seals.now ≤ 64 }
    ensures within { result ≤ length seals.now }
    ensures stand { ShowSeals 0 (take result held.now) (take result seals.now) }
{
    for (i, seal) in seals.iter().enumerate() {
        let stands = match held.get(i) {
            Some(row) => is_row_of(row, i as u32 + 1, seal),
            None => false,
        };
        if !stands {
            return i;
        }
    }
    seals.len()
}

/// Whether a row is that of the seal at this position.
fn is_row_of(row: &Row, position: u32, seal: &SealTexts) -> bool
    ensures { IsTrue result → ShowsSeal row.now position seal.now }
{
    number_at(row, 0) == Ok(position)
        && number_at(row, 1) == Ok(u32::from(seal.seat))
        && text_at(row, 2) == Ok(seal.seal.as_slice())
        && text_at(row, 3) == Ok(seal.secret.as_slice())
}
