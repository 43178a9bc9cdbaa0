// What two replies to a claim file come to.
ghost use Rattle.std.specs.Prelude.{IfOk, IfSome, IsErrOf};
ghost use Rattle.vk_judge.specs.Common.{Gives, MemoryWasWanting, OnlyReads, unread_file};
ghost use Rattle.vk_claim.specs.Extraction.{ShowsClaims, claim_extraction_named};

use crate::circuits::Circuits;
use crate::claim::{ClaimRefusal, read_claim};
use crate::front::ClaimHead;
use std::alloc::Global;
use vk_bids::{FileExtraction, OpenedFile, extract_file};
use vk_io::Shelf;
use vk_judge::{TwoReplies, VErr};

/// What two accepted replies open of a claim file: its head, and the values of the lanes whose two
/// bits differ.
pub type OpenedClaim = OpenedFile<ClaimHead>;

/// What two replies to a claim file come to.
pub type ClaimExtraction = FileExtraction<ClaimHead, ClaimRefusal>;

/// What the replies to two challenges come to, for these circuits: of each lane whose bits differ
/// values that open its seals, and of which the file's claim holds; or a commitment that was opened
/// with two values; or the first fault.
///
/// Errs where a file is missing or longer than 2^30 bytes, and names the first that is, in the
/// order of the names; where the shelf fails; and for want of memory.
#[tactic(auto, using(crate::proofs::Named::extraction_begun))]
pub fn extract_claim<S: Shelf, Q: Circuits>(
    alloc: Global,
    shelf: &mut S,
    circuits: &Q,
    names: &TwoReplies<'_>,
) -> Result<ClaimExtraction, VErr>
    ensures modelled { IfSome (S.held shelf.old) (λ files. Gives unread_file (λ found. found) result
        (claim_extraction_named (Q.admitted circuits.now) files names.now)) }
    ensures shows { IfOk result (ShowsClaims (Q.admitted circuits.now) (Q.claim circuits.now)) }
    ensures wanting { IsErrOf result VErr.NoMemory → MemoryWasWanting }
    ensures shelf { OnlyReads S.held S.Shelf.faults VErr.Failed result shelf.old shelf.new }
{
    let mut two = names.begin(alloc, shelf)?;
    let opened = read_claim(alloc, shelf, circuits, &mut two.readers.pair.file)?;
    let found = extract_file(alloc, shelf, opened, two)?;
    Ok(found)
}
