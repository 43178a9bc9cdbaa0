// The verdict on a board.
ghost use Rattle.std.specs.Prelude.{◌≡◌};
ghost use Rattle.vk_verifier.specs.Verdicts.{as_verdict, refused_verdict, verdict_by};

use vk_judge::{Fault, Finding, Part, Refusal};
use vk_wire::WireFault;

/// The first fault of a board, a challenge and a reply, or that there is none. The lines, lanes,
/// wires and rows are counted as in `Fault`.
#[derive(Clone, Copy, Debug, PartialEq, Eq)]
pub enum BoardVerdict {
    Accepted,
    /// In this line the file stops being of its form.
    Malformed {
        part: Part,
        line: u64,
    },
    /// As in `BoardRefusal`.
    Price,
    Winner,
    /// The challenge's bits, or the reply's lanes, aren't as many as the board's lanes.
    Lanes,
    /// The wire of the lane reads nothing.
    Wire {
        lane: u32,
        wire: u32,
        fault: WireFault,
    },
    /// The halves that are read don't meet the row.
    Row {
        lane: u32,
        row: u32,
    },
}

/// Why a board is refused by what its front says.
#[derive(Clone, Copy, Debug, PartialEq, Eq)]
pub enum BoardRefusal {
    /// The price may not stand beside the reserve, the width and the number of seals.
    Price,
    /// The board names a winner, and no seal has that seat.
    Winner,
}

impl From<Fault> for BoardVerdict {
    ghost from_gives = { λ fault verdict. verdict ≡ as_verdict fault };

    fn from(fault: Fault) -> BoardVerdict {
        match fault {
            Fault::Malformed { part, line } => BoardVerdict::Malformed { part, line },
            Fault::Lanes => BoardVerdict::Lanes,
            Fault::Wire { lane, wire, fault } => BoardVerdict::Wire { lane, wire, fault },
            Fault::Row { lane, row } => BoardVerdict::Row { lane, row },
        }
    }
}

impl From<Refusal<BoardRefusal>> for BoardVerdict {
    ghost from_gives = { λ refusal verdict. verdict ≡ refused_verdict refusal };

    fn from(refusal: Refusal<BoardRefusal>) -> BoardVerdict {
        match refusal {
            Refusal::Front(BoardRefusal::Price) => BoardVerdict::Price,
            Refusal::Front(BoardRefusal::Winner) => BoardVerdict::Winner,
            Refusal::Fault(fault) => BoardVerdict::from(fault),
        }
    }
}

/// The verdict by what judging came to.
pub fn verdict_by(judged: Result<(), Refusal<BoardRefusal>>) -> BoardVerdict
    ensures { result ≡ verdict_by judged }
{
    match judged {
        Ok(()) => BoardVerdict::Accepted,
        Err(refusal) => BoardVerdict::from(refusal),
    }
}

/// What two replies to a board come to.
pub type TwoVerdict = Finding<BoardVerdict>;
