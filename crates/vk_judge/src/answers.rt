// What is answered of files, behind any front.
ghost use Rattle.std.specs.Prelude.{◌≡◌};
ghost use Rattle.vk_io.specs.Faults.{told_as};
ghost use Rattle.vk_judge.specs.declared.answers.VErr.TheVariants as verr;

use vk_io::OutsideErr;
use vk_wire::WireFault;

/// A file that a verdict is given on.
#[derive(Clone, Copy, Debug, PartialEq, Eq)]
pub enum Part {
    Board,
    Challenge,
    Reply,
    SecondChallenge,
    SecondReply,
}

/// The first fault behind a front: of a challenge, of the reply to it, and of the lanes and ends of
/// both files.
#[derive(Clone, Copy, Debug, PartialEq, Eq)]
pub enum Fault {
    /// The file is not of its form. The line, counted from 1, is the first that isn't what its
    /// place demands.
    Malformed {
        part: Part,
        line: u64,
    },
    /// The challenge's bits, or the reply's lanes, aren't as many as the statement's lanes.
    Lanes,
    /// In the lane, counted from 1, the wire, counted from 0, is the first that reads nothing.
    Wire {
        lane: u32,
        wire: u32,
        fault: WireFault,
    },
    /// In the lane, counted from 1, every wire reads its half, and the row, counted from 0, is the
    /// first that these don't meet.
    Row {
        lane: u32,
        row: u32,
    },
}

/// Why no verdict was given.
#[derive(Clone, Copy, Debug, PartialEq, Eq)]
pub enum VErr {
    /// The file isn't held, and those named before it are held and not too long.
    Missing(Part),
    /// The file has more than 2^30 bytes, and those named before it are held and not too long.
    TooLong(Part),
    /// The outside failed. The shelf's count of faults rose in this call.
    Failed,
    /// Want of memory.
    NoMemory,
}

impl From<OutsideErr> for VErr {
    ghost from_gives = { λ outside e. e ≡ told_as verr.Failed verr.NoMemory outside };

    fn from(outside: OutsideErr) -> VErr {
        outside.told_as(VErr::Failed, VErr::NoMemory)
    }
}
