// What two replies to a file of any form come to.
ghost use Rattle.std.specs.Prelude.{◌≡◌, All, IfOk, IfSome, IsErrOf};
ghost use Rattle.vk_judge.specs.Common.{IsCheckedOver, IsStatement, MemoryWasWanting, OnlyReads, and_rest, checked_base, checked_finding, checked_given, coming_of, of_two};
ghost use Rattle.vk_bids.specs.Extractions.{OfBids, found_by, given_by};
ghost use Rattle.vk_bids.specs.FileExtraction.{OpensBase, OpensFile, OpensValuesOf, extraction_of, extraction_past, opened_by, values_of};
ghost use Rattle.vk_bids.specs.Opening.{LaneOpens};

use crate::extraction::Extraction;
use crate::gathering::Gathered;
use crate::lane_extraction::{OpenedLanes, gather};
use std::alloc::Global;
use vk_io::{OutsideErr, Shelf};
use vk_judge::{Checker, Finding, Opened, Refusal, TwoAttempts};

/// What two accepted replies open of a file: its head, and the values of the lanes whose two bits
/// differ.
#[derive(Debug, Drop)]
pub struct OpenedFile<H> {
    pub head: H,
    pub opened: OpenedLanes,
}

/// What two replies to a file come to.
pub type FileExtraction<H, R> = Extraction<Refusal<R>, OpenedFile<H>>;

/// What the replies to two challenges come to, of a file that was opened and is read up to its
/// first lane. Errs where the shelf fails, and for want of memory.
#[tactic(auto, using(crate::proofs::FileExtraction::opens_file))]
pub fn extract_file<S: Shelf, H: Drop, R: Copy>(
    alloc: Global,
    shelf: &mut S,
    opened: Result<Opened<H>, Refusal<R>>,
    two: TwoAttempts,
) -> Result<FileExtraction<H, R>, OutsideErr>
    ensures modelled { IfOk result (λ found. IfSome (S.held shelf.old) (λ files.
        of_two (λ file. extraction_past (and_rest opened file)) two files ≡ found)) }
    ensures opens { IfOk result (OpensFile opened) }
    ensures wanting { IsErrOf result OutsideErr.NoMemory → MemoryWasWanting }
    ensures shelf { OnlyReads S.held S.Shelf.faults OutsideErr.Failed result shelf.old shelf.new }
{
    let checker = Checker::begin(alloc, shelf, opened, two)?;
    let found = extract_checked(alloc, shelf, checker)?;
    Ok(found)
}

/// What the replies come to that a checker before its first lane reads: each file is read to its
/// end or to its first fault, and a fault of any comes before a clash. At most 64 lanes are kept.
///
/// Errs where the shelf fails, and for want of memory.
pub fn extract_checked<S: Shelf, H: Drop, R: Copy>(
    alloc: Global,
    shelf: &mut S,
    checker: Checker<H, R>,
) -> Result<FileExtraction<H, R>, OutsideErr>
    requires none_given { checked_given checker ≡ 0 }
    ensures modelled { IfOk result (λ found. IfSome (S.held shelf.old) (λ files.
        extraction_of (coming_of checker files) ≡ found)) }
    ensures opens { IfOk result (OpensBase (checked_base checker)) }
    ensures wanting { IsErrOf result OutsideErr.NoMemory → MemoryWasWanting }
    ensures shelf { OnlyReads S.held S.Shelf.faults OutsideErr.Failed result shelf.old shelf.new }
{
    let (checker, gathered) = gather(alloc, shelf, checker)?;
    let found = conclude(checker, gathered);
    Ok(found)
}

/// What was found, with what was gathered.
#[tactic(auto, using(crate::proofs::FileExtraction::opens_base))]
fn conclude<H: Drop, R: Copy>(checker: Checker<H, R>, gathered: Gathered) -> FileExtraction<H, R>
    requires over { IsCheckedOver checker }
    requires opens { IfSome (checked_base checker)
        (λ known. IfOk gathered (All (LaneOpens known.base.statement))) }
    ensures value { IfSome (checked_finding checker)
        (λ finding. result ≡ found_by opened_by (checked_base checker) finding gathered) }
    ensures opens { OpensBase (checked_base checker) result }
{
    match checker.finding() {
        Finding::Refused { second, verdict } => Extraction::Refused { second, verdict },
        Finding::Same => Extraction::Same,
        Finding::Ready => values_of(checker.into_opened(), gathered),
    }
}

/// Where both replies are accepted and the challenges differ.
fn values_of<H: Drop, R: Copy>(file: Opened<H>, gathered: Gathered) -> FileExtraction<H, R>
    requires statement { IsStatement file.statement }
    requires opens { IfOk gathered (All (LaneOpens file.statement)) }
    ensures value { result ≡ given_by (values_of file) gathered }
    ensures opens { OfBids (OpensValuesOf (λ other. file ≡ other)) result }
{
    let Opened { head, statement } = file;
    match gathered {
        Ok(lanes) => {
            let opened = OpenedLanes { statement, lanes };
            Extraction::Bids(OpenedFile { head, opened })
        }
        Err(two) => Extraction::Clash(two),
    }
}
