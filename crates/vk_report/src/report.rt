ghost use Rattle.std.specs.Prelude.{◌≡◌};
ghost use Rattle.vk_report.specs.Causes.{of_front, of_start};

use vk_board::{FrontErr, Head};
use vk_lines::{ReadErr, StartErr};
use vk_seq::Seq;

/// What a board publishes.
#[derive(Debug, Drop)]
pub struct Report {
    pub head: Head,
    /// The seat of each seal, in the order of the board.
    pub seats: Seq<u16>,
    /// How many wires each lane has, the inputs included.
    pub wires: u32,
    /// How many rows each lane has.
    pub rows: u32,
}

/// Why no report was made: the first fault of the file, or a failure.
#[derive(Clone, Copy, Debug, PartialEq, Eq)]
pub enum ReportErr {
    /// The file isn't held.
    Missing,
    /// The file has more than 2^30 bytes.
    TooLong,
    /// The number of the first line, from 1, that isn't what its place demands.
    Malformed { line: u64 },
    /// The price may not stand beside the reserve, the width and the number of seals.
    Price,
    /// The board names a winner, and no seal has that seat.
    Winner,
    /// The outside failed. The shelf's count of faults rose in this call.
    Failed,
    /// Want of memory.
    NoMemory,
}

impl From<StartErr> for ReportErr {
    ghost from_gives = { λ refused e. e ≡ of_start refused };

    fn from(refused: StartErr) -> ReportErr {
        match refused {
            StartErr::Missing => ReportErr::Missing,
            StartErr::TooLong => ReportErr::TooLong,
            StartErr::Failed => ReportErr::Failed,
            StartErr::NoMemory => ReportErr::NoMemory,
        }
    }
}

impl From<FrontErr> for ReportErr {
    ghost from_gives = { λ refused e. e ≡ of_front refused };

    fn from(refused: FrontErr) -> ReportErr {
        match refused {
            FrontErr::Unread(ReadErr::Malformed { line }) => ReportErr::Malformed { line },
            FrontErr::Unread(ReadErr::Failed) => ReportErr::Failed,
            FrontErr::Unread(ReadErr::NoMemory) => ReportErr::NoMemory,
            FrontErr::Price => ReportErr::Price,
            FrontErr::Winner => ReportErr::Winner,
        }
    }
}
