//! Bytes moved to a writer, where an error is counted as a fault, and from a place of a reader.

ghost use Rattle.std.specs.Prelude.{◌≤◌, length, take, IfOk, OnOk};
ghost use Rattle.std.specs.Io.KnownBytes.{Appends};
ghost use Rattle.vk_files.specs.Counting.{CountsOnce};
ghost use Rattle.vk_files.specs.Moves.{GivesFrom};

use crate::faults::FaultCount;
use crate::outcome::count_fault;
use crate::pieces::read_fully;
use std::io;
use std::io::{Read, Seek, SeekFrom, Write};
use vk_io::OutsideErr;

/// Has the writer take the whole piece. An error is counted, once.
pub fn put_counted<W: Write>(
    writer: &mut W,
    piece: &[u8],
    faults: &mut FaultCount,
) -> Result<(), OutsideErr>
    ensures put { OnOk result (Appends (W.contents writer.old) (W.contents writer.new) piece.now) }
    ensures counted { CountsOnce result faults.old faults.new }
{
    count_fault(writer.write_all(piece), faults)?;
    Ok(())
}

/// Fills `into` with what the reader gives from `at` on, as far as it gives any, and answers how
/// many bytes that are.
pub fn read_from<F: Read + Seek>(file: &mut F, at: u64, into: &mut [u8]) -> io::Result<usize>
    ensures bound { IfOk result (λ n. n ≤ length into.old) }
    ensures bytes { IfOk result
        (λ n. GivesFrom F.stream_position F.remaining at (length into.old) (take n into.new)
        file.old file.new) }
{
    file.seek(SeekFrom::Start(at))?;
    let count = read_fully(file, into)?;
    Ok(count)
}
