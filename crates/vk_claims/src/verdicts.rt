//! What is said of what judging a claim comes to.

ghost use Rattle.std.specs.Prelude.{◌≡◌, IfOk, IsErr, IsOk, Ok};
ghost use Rattle.vk_judge.specs.Wanting.{MemoryWasWanting};
ghost use Rattle.vk_claims.specs.Verdicts.{claim_judged_said, claim_refused_said};

use std::alloc::Global;
use vk_audit::{NamedParts, say_verdict};
use vk_claim::ClaimRefusal;
use vk_effect::{Said, say_refused};
use vk_judge::{Part, Refusal};
use vk_residue::NoMemory;
use vk_verifier::BoardVerdict;

/// What is said of the first reply where it is refused, or of the second.
pub fn claim_refused<N: NamedParts>(
    alloc: Global,
    names: &N,
    second: bool,
    refusal: Refusal<ClaimRefusal>,
) -> Result<Said, NoMemory>
    ensures { IfOk result
        (λ said. said ≡ claim_refused_said (N.name_of names.now) second refusal) }
{
    let said = match refusal {
        Refusal::Front(ClaimRefusal::Public) => {
            say_refused(alloc, names.name_of(Part::Board), "public")?
        }
        Refusal::Fault(fault) => say_verdict(alloc, names, second, BoardVerdict::from(fault))?,
    };
    Ok(said)
}

/// What is said of one reply. That it is accepted takes no memory.
#[tactic(auto, using(vk_judge::specs::Wanting::memory_was_wanting))]
pub fn claim_judged<N: NamedParts>(
    alloc: Global,
    names: &N,
    answer: Result<(), Refusal<ClaimRefusal>>,
) -> Result<Said, NoMemory>
    ensures said { IfOk result (λ said. said ≡ claim_judged_said (N.name_of names.now) answer) }
    ensures accepted { answer ≡ Ok tt → IsOk result }
    ensures wanting { IsErr result → MemoryWasWanting }
{
    let said = match answer {
        Ok(()) => say_verdict(alloc, names, false, BoardVerdict::Accepted)?,
        Err(refusal) => claim_refused(alloc, names, false, refusal)?,
    };
    Ok(said)
}
