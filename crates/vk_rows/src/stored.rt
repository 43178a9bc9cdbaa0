//! The texts of a seal and its secret, as they are stored.

ghost use Rattle.std.specs.Prelude.{◌≡◌, ◌<◌, ◌^◌, length, IfOk, IsErrOf};
ghost use Rattle.vk_lines.specs.Lines.{rest_of};
ghost use Rattle.vk_seal.specs.Texts as form;
ghost use Rattle.vk_keeper.specs.declared.auction.SealRow.{SealRow as AnyRow};
ghost use Rattle.vk_rows.specs.Columns.{IsStored};
ghost use Rattle.vk_rows.specs.Refusals.{MissesNone};

use crate::refusals::{refused_start, refused_text};
use std::alloc::Global;
use vk_io::{OutsideErr, SureShelf};
use vk_keeper::SealRow;
use vk_lines::Lines;
use vk_seal::{read_seal, read_secret};

/// The name of a stored text on the shelf that it is read from.
const STORED: &str = "stored";

/// The seal and the secret of their stored texts.
pub fn read_texts(
    alloc: Global,
    seal_text: &[u8],
    secret_text: &[u8],
) -> Result<SealRow, OutsideErr>
    ensures seal_text { IfOk result (λ row. seal_text.now ≡ form.seal_text row.seal) }
    ensures secret_text { IfOk result (λ row. secret_text.now ≡ form.secret_text row.secret) }
    ensures right { IfOk result IsStored }
    ensures exact { MissesNone (λ (row : AnyRow). IsStored row
        × (seal_text.now ≡ form.seal_text row.seal)
        × (secret_text.now ≡ form.secret_text row.secret)) result }
{
    let (mut shelf, mut lines) = lines_of(alloc, seal_text)?;
    let seal = read_seal(alloc, &mut shelf, &mut lines).map_err(refused_text)?;
    let (mut shelf, mut lines) = lines_of(alloc, secret_text)?;
    let secret = read_secret(alloc, &mut shelf, &mut lines).map_err(refused_text)?;
    Ok(SealRow { seal, secret })
}

/// A stored text on a shelf of its own, and a reader before its first line. Errs where it has more
/// than 2^30 bytes, and for want of memory.
fn lines_of(alloc: Global, text: &[u8]) -> Result<(SureShelf, Lines), OutsideErr>
    ensures rest { IfOk result (λ made. rest_of made.1 made.0.files
        ≡ record { taken = 0; left = text.now }) }
    ensures exact { IsErrOf result OutsideErr.Failed → 2 ^ 30 < length text.now }
{
    let mut shelf = SureShelf::new(alloc);
    shelf.put_file(STORED, text)?;
    let lines = Lines::start(alloc, &mut shelf, STORED).map_err(refused_start)?;
    Ok((shelf, lines))
}
