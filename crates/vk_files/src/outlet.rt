//! Where printed bytes go, and whole pieces that go there, where a call that a signal interrupts is
//! made again.

ghost use Rattle.std.specs.Prelude.{◌≢◌, ◌≤◌, length, IfOk, IfErr};
ghost use Rattle.std.specs.IoError.{error_kind};
ghost use Rattle.vk_io.specs.Files.{Modelled, Takes};
ghost use Rattle.vk_files.specs.Counting.{CountsOnce};
ghost use Rattle.vk_files.specs.Outlets.{TakesSome};

use crate::again::again;
use crate::faults::FaultCount;
use crate::outcome::count_fault;
use std::io;
use std::io::ErrorKind;
use vk_io::OutsideErr;

/// Where printed bytes go. A call may take a part of what it is given. No call changes whether it
/// is modelled.
pub trait Outlet {
    ghost use Rattle.std.specs.Prelude.{ℕ, ◌≤◌, List, Option, length, IfOk};
    ghost use Rattle.vk_io.specs.Files.{Modelled};
    ghost use Rattle.vk_files.specs.Outlets.{TakesSome};

    /// The bytes taken so far, where they are modelled.
    ghost taken: { Self → Option (List ℕ) };

    /// Takes a first part of the piece, and answers how many bytes that are. Refused, it took none.
    fn take_some(&mut self, piece: &[u8]) -> io::Result<usize>
        ensures bound { IfOk result (λ n. n ≤ length piece.now) }
        ensures taken { Modelled (TakesSome piece.now result) (taken self.old) (taken self.new) };
}

/// One call, made again where a signal interrupts it.
fn take_again<O: Outlet>(outlet: &mut O, piece: &[u8]) -> io::Result<usize>
    ensures bound { IfOk result (λ n. n ≤ length piece.now) }
    ensures taken { Modelled (TakesSome piece.now result) (O.taken outlet.old)
        (O.taken outlet.new) }
    ensures again { IfErr result (λ error. error_kind error ≢ ErrorKind.Interrupted) }
{
    again!(outlet.take_some(piece))
}

/// Has the outlet take the whole piece. Refused, it took a first part of it. A call that takes
/// nothing is an error.
fn take_whole<O: Outlet>(outlet: &mut O, piece: &[u8]) -> io::Result<()>
    ensures taken { Modelled (Takes piece.now result) (O.taken outlet.old) (O.taken outlet.new) }
    ensures again { IfErr result (λ error. error_kind error ≢ ErrorKind.Interrupted) }
{
    let mut done = 0;
    while done < piece.len() {
        let (_, rest) = piece.split_at(done);
        let count = take_again(outlet, rest)?;
        if count == 0 {
            return Err(io::Error::from(ErrorKind::WriteZero));
        }
        done += count;
    }
    Ok(())
}

/// Has the outlet take the whole piece. Refused, it took a first part of it. An error is counted,
/// once.
pub fn put_counted<O: Outlet>(
    outlet: &mut O,
    piece: &[u8],
    faults: &mut FaultCount,
) -> Result<(), OutsideErr>
    ensures taken { Modelled (Takes piece.now result) (O.taken outlet.old) (O.taken outlet.new) }
    ensures counted { CountsOnce result faults.old faults.new }
{
    let taken = take_whole(outlet, piece);
    count_fault(taken, faults)
}
