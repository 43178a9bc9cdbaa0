//! Whole pieces from a reader, where a call that a signal interrupts is made again.

ghost use Rattle.std.specs.Prelude.{◌≢◌, ◌<◌, ◌≤◌, length, take, IfOk, IfErr};
ghost use Rattle.std.specs.IoError.{error_kind};
ghost use Rattle.std.specs.Io.KnownBytes.{Consumes, IsAtEnd, ReadConsumes};

use crate::again::again;
use std::io;
use std::io::{ErrorKind, Read};

/// One read, made again where a signal interrupts it.
fn read_some<R: Read>(reader: &mut R, into: &mut [u8]) -> io::Result<usize>
    ensures bound { IfOk result (λ n. n ≤ length into.old) }
    ensures bytes { ReadConsumes (R.remaining reader.old) (R.remaining reader.new) result into.new }
    ensures again { IfErr result (λ error. error_kind error ≢ ErrorKind.Interrupted) }
{
    again!(reader.read(into))
}

/// Reads until `into` is full or the reader ends, and answers how many bytes it put there.
pub fn read_fully<R: Read>(reader: &mut R, into: &mut [u8]) -> io::Result<usize>
    ensures bound { IfOk result (λ n. n ≤ length into.old) }
    ensures bytes { IfOk result
        (λ n. Consumes (R.remaining reader.old) (R.remaining reader.new) (take n into.new)) }
    ensures full { IfOk result (λ n. n < length into.old → IsAtEnd (R.remaining reader.new)) }
    ensures again { IfErr result (λ error. error_kind error ≢ ErrorKind.Interrupted) }
{
    let mut filled = 0;
    while filled < into.len() {
        let (_, rest) = into.split_at_mut(filled);
        let count = read_some(reader, rest)?;
        if count == 0 {
            return Ok(filled);
        }
        filled += count;
    }
    Ok(filled)
}
