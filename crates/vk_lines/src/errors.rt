ghost use Rattle.std.specs.Prelude.{◌≡◌};
ghost use Rattle.vk_io.specs.Faults.{told_as};
ghost use Rattle.vk_lines.specs.declared.errors.ReadErr.TheVariants as unread;
ghost use Rattle.vk_lines.specs.declared.errors.StartErr.TheVariants as unstarted;

use std::alloc::{AllocError, AllocFailed};
use vk_io::OutsideErr;

/// The most bytes of a file that is read as lines.
pub const MOST_BYTES: u64 = 1 << 30;

/// Why no reader of lines was made.
#[derive(Clone, Copy, Debug, PartialEq, Eq)]
pub enum StartErr {
    /// The name isn't held.
    Missing,
    /// The file has more than 2^30 bytes.
    TooLong,
    /// The outside failed. The shelf's count of faults rose in this call.
    Failed,
    /// Want of memory.
    NoMemory,
}

/// Why a form was not read.
#[derive(Clone, Copy, Debug, PartialEq, Eq)]
pub enum ReadErr {
    /// The number of the first line, from 1, that isn't what its place demands.
    Malformed { line: u64 },
    /// The outside failed. The shelf's count of faults rose in this call.
    Failed,
    /// Want of memory.
    NoMemory,
}

impl From<AllocError> for StartErr {
    ghost from_gives = { λ _ e. e ≡ unstarted.NoMemory };

    fn from(_refused: AllocError) -> StartErr {
        StartErr::NoMemory
    }
}

impl From<OutsideErr> for StartErr {
    ghost from_gives = { λ refused e. e ≡ told_as unstarted.Failed unstarted.NoMemory refused };

    fn from(refused: OutsideErr) -> StartErr {
        refused.told_as(StartErr::Failed, StartErr::NoMemory)
    }
}

impl From<OutsideErr> for ReadErr {
    ghost from_gives = { λ refused e. e ≡ told_as unread.Failed unread.NoMemory refused };

    fn from(refused: OutsideErr) -> ReadErr {
        refused.told_as(ReadErr::Failed, ReadErr::NoMemory)
    }
}

impl From<AllocError> for ReadErr {
    ghost from_gives = { λ _ e. e ≡ unread.NoMemory };

    fn from(_refused: AllocError) -> ReadErr {
        ReadErr::NoMemory
    }
}

impl<T: Drop> From<AllocFailed<T>> for ReadErr {
    ghost from_gives = { λ _ e. e ≡ unread.NoMemory };

    fn from(_refused: AllocFailed<T>) -> ReadErr {
        ReadErr::NoMemory
    }
}
