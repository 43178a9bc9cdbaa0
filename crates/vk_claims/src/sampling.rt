ghost use Rattle.std.specs.Prelude.{◌≡◌, ℕ, IfOk, IsErr, IsErrOf, Ok};
ghost use Rattle.vk_judge.specs.Common.{Causes, MemoryWasWanting};
ghost use Rattle.vk_report.specs.Samples.{IsCaseOf};
ghost use Rattle.vk_sample_parts.specs.Effects.{ActsAs};
ghost use Rattle.vk_claims.specs.Claims.{IsReady, MayPublish, claim_case, proof_by, proof_in, sizes_of};
ghost use Rattle.vk_claims.specs.ClaimSamples.{ActsOn, FreelyOn, claim_sample_on, effect_by};

use crate::files::write_claim;
use crate::making::{Made, make_claim};
use crate::numbers::{numbers_of, sizes_of};
use crate::reading::read_back;
use crate::summary::made_lines;
use std::alloc::Global;
use vk_effect::Said;
use vk_io::{OutsideErr, Shelf};
use vk_report::{SampleCase, case_of};
use vk_residue::NoMemory;
use vk_words::Kind;

/// Makes the claim of a number with its file and two replies, writes them, reads them back, and
/// says what they come to. Files that stand under their names are replaced; where a seed is dry
/// none is written. Of the kind matching any of the matchings that are stable for the number's
/// ranks may be published.
pub fn claim_sample<S: Shelf>(
    alloc: Global,
    shelf: &mut S,
    kind: Kind,
    number: u64,
) -> Result<Said, OutsideErr>
    ensures acts { ActsAs (λ ledger. claim_sample_on (S.held shelf.old) ledger kind number) result
        (S.held shelf.old) (S.held shelf.new) }
    ensures free { FreelyOn kind number result (S.held shelf.old) (S.held shelf.new) }
    ensures wanting { IsErrOf result OutsideErr.NoMemory → MemoryWasWanting }
    ensures causes { Causes OutsideErr.Failed result (S.Shelf.faults shelf.old)
        (S.Shelf.faults shelf.new) }
{
    let said = make_and_hold(alloc, shelf, kind, number);
    said
}

/// The case of the number.
#[tactic(auto, using(vk_judge::specs::Wanting::memory_was_wanting))]
fn claim_case(alloc: Global, kind: Kind, number: u64) -> Result<SampleCase, NoMemory>
    ensures case { IfOk result (λ case. case ≡ claim_case kind number) }
    ensures right { IfOk result (IsCaseOf (sizes_of kind)) }
    ensures wanting { IsErr result → MemoryWasWanting }
{
    let case = case_of(alloc, &sizes_of(kind), number)?;
    Ok(case)
}

/// What `claim_sample` does, by both of its clauses as one.
#[tactic(auto, using(crate::proofs::Acting::stopped_so))]
fn make_and_hold<S: Shelf>(
    alloc: Global,
    shelf: &mut S,
    kind: Kind,
    number: u64,
) -> Result<Said, OutsideErr>
    ensures so { ActsOn kind number result (S.held shelf.old) (S.held shelf.new) }
    ensures wanting { IsErrOf result OutsideErr.NoMemory → MemoryWasWanting }
    ensures causes { Causes OutsideErr.Failed result (S.Shelf.faults shelf.old)
        (S.Shelf.faults shelf.new) }
{
    let case = claim_case(alloc, kind, number)?;
    let published = numbers_of(alloc, kind, &case)?;
    let numbers = published.as_slice();
    match make_claim(alloc, kind, &case, numbers) {
        Ok(made) => {
            let said = hold(alloc, shelf, kind, number, &case, numbers, &made);
            said
        }
        Err(dry) => {
            let said = dry.say()?;
            Ok(said)
        }
    }
}

/// Writes the files of the claim, and reads them back.
fn hold<S: Shelf>(
    alloc: Global,
    shelf: &mut S,
    kind: Kind,
    number: u64,
    case: &SampleCase,
    numbers: &[u64],
    made: &Made,
) -> Result<Said, OutsideErr>
    requires right { IsCaseOf (sizes_of kind) case.now }
    requires published { MayPublish kind case.now numbers.now }
    requires made { proof_by kind case.now numbers.now ≡ Ok (proof_in case.now made.now) }
    requires prepared { IsReady case.now made.now }
    ensures acts { ActsAs
        (λ ledger. effect_by kind (S.held shelf.old) ledger number case.now numbers.now
        (Ok (proof_in case.now made.now)))
        result (S.held shelf.old) (S.held shelf.new) }
    ensures wanting { IsErrOf result OutsideErr.NoMemory → MemoryWasWanting }
    ensures causes { Causes OutsideErr.Failed result (S.Shelf.faults shelf.old)
        (S.Shelf.faults shelf.new) }
{
    let lines = made_lines(alloc, kind, number, case.lanes, &made.prepared.plan)?;
    write_claim(alloc, shelf, kind, case, numbers, made)?;
    let said = read_back(alloc, shelf, lines);
    said
}
