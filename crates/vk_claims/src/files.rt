// The files of a sample's claim.
ghost use Rattle.std.specs.Prelude.{◌≡◌, ◌≤◌, length, IfOk, IsErrOf};
ghost use Rattle.vk_judge.specs.Common.{Causes, MemoryWasWanting, Modelled, WritesAll};
ghost use Rattle.vk_job.specs.Proofs.{IsProof};
ghost use Rattle.vk_claim.specs.Texts.{claim_head_text};
ghost use Rattle.vk_claims.specs.Claims.{IsReady, head_with, proof_in};
ghost use Rattle.vk_claims.specs.Texts.{files_of};

use crate::making::Made;
use crate::names::claim_names;
use std::alloc::Global;
use vk_claim::{ClaimHead, Kind, claim_head_text};
use vk_io::{OutsideErr, Shelf, write_files};
use vk_job::HonestProof;
use vk_report::SampleCase;
use vk_residue::NoMemory;
use vk_sample_parts::ProofFiles;
use vk_seq::Seq;

/// The text of the head of the claim file.
fn head_of(
    alloc: Global,
    kind: Kind,
    case: &SampleCase,
    numbers: &[u64],
) -> Result<Vec<u8>, NoMemory>
    requires { length case.now.seats ≤ 64 }
    ensures { IfOk result (λ text. text.items
        ≡ claim_head_text (head_with kind case.now numbers.now)) }
{
    let head = ClaimHead {
        auction: case.auction,
        kind,
        lanes: case.lanes,
        inputs: case.seats.len() as u32,
        numbers: Seq::from_vec(Vec::from_slice(alloc, numbers)?),
    };
    let text = claim_head_text(alloc, &head)?;
    Ok(text)
}

/// Writes the claim file, both challenges and the replies to them, lane by lane. Files that stand
/// there are replaced.
#[tactic(auto, using(vk_judge::specs::Wanting::memory_was_wanting))]
pub fn write_claim<S: Shelf>(
    alloc: Global,
    shelf: &mut S,
    kind: Kind,
    case: &SampleCase,
    numbers: &[u64],
    made: &Made,
) -> Result<(), OutsideErr>
    requires few { length case.now.seats ≤ 64 }
    requires right { IsProof (proof_in case.now made.now) }
    requires prepared { IsReady case.now made.now }
    requires first { length case.now.first.bits ≡ case.now.lanes }
    requires second { length case.now.second.bits ≡ case.now.lanes }
    ensures written { Modelled
        (WritesAll (files_of kind case.now numbers.now (proof_in case.now made.now)) result)
        (S.held shelf.old) (S.held shelf.new) }
    ensures wanting { IsErrOf result OutsideErr.NoMemory → MemoryWasWanting }
    ensures causes { Causes OutsideErr.Failed result (S.Shelf.faults shelf.old)
        (S.Shelf.faults shelf.new) }
{
    let head = head_of(alloc, kind, case, numbers)?;
    let proof = HonestProof::of(
        &case.auction,
        made.rows.as_slice(),
        case.lanes,
        case.seed,
        &made.prepared,
    );
    let files = ProofFiles {
        names: claim_names(),
        head: head.as_slice(),
        proof: &proof,
        first: &case.first,
        second: &case.second,
    };
    let written = write_files(alloc, shelf, &files);
    written
}
