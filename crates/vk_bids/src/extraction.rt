// The extraction over files.
ghost use Rattle.std.specs.Prelude.{◌≡◌, IfOk, IfSome, IsErrOf};
ghost use Rattle.vk_judge.specs.Common.{Gives, MemoryWasWanting, OnlyReads, checked_base, checked_given, coming_of, unread_file};
ghost use Rattle.vk_verifier.specs.TwoBoards.{IsOfBoard};
ghost use Rattle.vk_bids.specs.Extraction.{Shows, as_extraction, board_extraction, extraction_named};

use crate::bids::LaneBids;
use crate::file_extraction::{FileExtraction, OpenedFile, extract_checked};
use crate::lane_extraction::OpenedLanes;
use std::alloc::Global;
use vk_board::Front;
use vk_commit::TwoOpenings;
use vk_io::{OutsideErr, Shelf};
use vk_judge::{TwoReplies, VErr};
use vk_seq::Seq;
use vk_verifier::{BoardChecker, BoardRefusal, BoardVerdict, PlacedHead, begin_board};

/// The bids that two accepted replies give, and what stands on the board before its first lane.
#[derive(Debug, Drop)]
pub struct Extracted {
    pub front: Front,
    /// The bids of the lanes whose two bits differ, in order: of each lane one for each seal.
    pub lanes: Seq<LaneBids>,
}

/// What two replies come to: to a board, where nothing else is said.
#[derive(Debug, Drop)]
pub enum Extraction<V = BoardVerdict, X = Extracted> {
    /// The verdict on the first reply, where that isn't accepted, else the verdict on the second,
    /// which isn't. The second's names the second challenge or the second reply in place of a first
    /// one.
    Refused { second: bool, verdict: V },
    /// Both replies are accepted, and the challenges' bits are the same.
    Same,
    /// Both replies are accepted, and in a lane whose bits differ an entry was opened with two
    /// values: the first such entry of the first such lane.
    Clash(TwoOpenings),
    /// Both replies are accepted, and they give the bids of every lane whose bits differ.
    Bids(X),
}

/// What the replies to two challenges come to: each file is read to its end or to its first fault,
/// and a fault of any comes before a clash. At most 64 lanes of 64 bids are kept.
///
/// Errs where a file is missing or longer than 2^30 bytes, and names the first that is, in the
/// order of the names; where the shelf fails; and for want of memory.
pub fn extract<S: Shelf>(
    alloc: Global,
    shelf: &mut S,
    names: &TwoReplies<'_>,
) -> Result<Extraction, VErr>
    ensures modelled { IfSome (S.held shelf.old) (λ files.
        Gives unread_file (λ extraction. extraction) result (extraction_named files names.now)) }
    ensures shows { IfOk result Shows }
    ensures wanting { IsErrOf result VErr.NoMemory → MemoryWasWanting }
    ensures shelf { OnlyReads S.held S.Shelf.faults VErr.Failed result shelf.old shelf.new }
{
    let checker = begin(alloc, shelf, names)?;
    let extraction = extract_rest(alloc, shelf, checker)?;
    Ok(extraction)
}

/// A checker of both replies before its first lane. What its lanes come to is the extraction.
pub(crate) fn begin<S: Shelf>(
    alloc: Global,
    shelf: &mut S,
    names: &TwoReplies<'_>,
) -> Result<BoardChecker, VErr>
    ensures modelled { IfSome (S.held shelf.old)
        (λ files. Gives unread_file (λ checker. board_extraction (coming_of checker files)) result
        (extraction_named files names.now)) }
    ensures right { IfOk result (λ checker. IsOfBoard (checked_base checker)) }
    ensures none_given { IfOk result (λ checker. checked_given checker ≡ 0) }
    ensures wanting { IsErrOf result VErr.NoMemory → MemoryWasWanting }
    ensures shelf { OnlyReads S.held S.Shelf.faults VErr.Failed result shelf.old shelf.new }
{
    let checker = begin_board(alloc, shelf, names);
    checker
}

/// What the replies come to that a checker before its first lane reads.
pub(crate) fn extract_rest<S: Shelf>(
    alloc: Global,
    shelf: &mut S,
    checker: BoardChecker,
) -> Result<Extraction, OutsideErr>
    requires none_given { checked_given checker ≡ 0 }
    requires right { IsOfBoard (checked_base checker) }
    ensures modelled { IfOk result (λ extraction. IfSome (S.held shelf.old) (λ files.
        board_extraction (coming_of checker files) ≡ extraction)) }
    ensures shows { IfOk result Shows }
    ensures wanting { IsErrOf result OutsideErr.NoMemory → MemoryWasWanting }
    ensures shelf { OnlyReads S.held S.Shelf.faults OutsideErr.Failed result shelf.old shelf.new }
{
    let found = extract_checked(alloc, shelf, checker)?;
    let extraction = as_extraction(found);
    Ok(extraction)
}

/// What the replies come to, as it is told of a board.
fn as_extraction(found: FileExtraction<PlacedHead, BoardRefusal>) -> Extraction
    ensures { result ≡ as_extraction found }
{
    match found {
        Extraction::Refused { second, verdict } => {
            let verdict = BoardVerdict::from(verdict);
            Extraction::Refused { second, verdict }
        }
        Extraction::Same => Extraction::Same,
        Extraction::Clash(two) => Extraction::Clash(two),
        Extraction::Bids(found) => {
            let OpenedFile { head, opened } = found;
            let PlacedHead { head, position } = head;
            let OpenedLanes { statement, lanes } = opened;
            let seals = statement.into_seals();
            let front = Front {
                head,
                seals,
                position,
            };
            Extraction::Bids(Extracted { front, lanes })
        }
    }
}
