// What the lanes of a claim file are to show.
ghost use Rattle.std.specs.Prelude.{◌≡◌, IfOk, IfSome, IsErrOf};
ghost use Rattle.vk_judge.specs.Common.{MemoryWasWanting, OnlyReads, and_rest, rest_of};
ghost use Rattle.vk_claim.specs.Values.{IsClaimFront, plan_for};
ghost use Rattle.vk_claim.specs.Claims.{IsClaim, claim_at, claim_with};

use crate::circuits::Circuits;
use crate::front::{ClaimFront, ClaimHead, read_claim_front};
use std::alloc::Global;
use vk_io::{OutsideErr, Shelf};
use vk_judge::{Opened, Part, Refusal, Statement, in_part, refusal_as_value};
use vk_lines::Lines;
use vk_residue::NoMemory;

/// Why a claim file is refused by what its front says.
#[derive(Clone, Copy, Debug, PartialEq, Eq)]
pub enum ClaimRefusal {
    /// The public part is not admitted.
    Public,
}

/// A claim: the head of its file, and what the lanes are to show, whose circuit is that of the
/// public part.
pub type Claim = Opened<ClaimHead>;

/// Reads a claim file before its first lane. It is refused where a line isn't what its place
/// demands, and then where the public part isn't admitted.
#[tactic(auto, unfolding(crate::specs::Claims::claim_at), using(vk_judge::specs::Wanting::memory_was_wanting))]
pub fn read_claim<S: Shelf, Q: Circuits>(
    alloc: Global,
    shelf: &mut S,
    circuits: &Q,
    lines: &mut Lines,
) -> Result<Result<Claim, Refusal<ClaimRefusal>>, OutsideErr>
    ensures modelled { IfSome (S.held shelf.old) (λ files. IfOk result (λ claim.
        claim_at (Q.admitted circuits.now) (rest_of lines.old files)
        ≡ and_rest claim (rest_of lines.new files))) }
    ensures right { IfOk result (λ claim. IfOk claim (IsClaim (Q.admitted circuits.now))) }
    ensures wanting { IsErrOf result OutsideErr.NoMemory → MemoryWasWanting }
    ensures shelf { OnlyReads S.held S.Shelf.faults OutsideErr.Failed result shelf.old shelf.new }
{
    let read = in_part(Part::Board, read_claim_front(alloc, shelf, lines));
    match refusal_as_value(read)? {
        Err(fault) => Ok(Err(Refusal::Fault(fault))),
        Ok(front) => {
            let claim = claim_with(alloc, circuits, front)?;
            Ok(claim)
        }
    }
}

/// The claim with this front, where its public part is admitted.
fn claim_with<Q: Circuits>(
    alloc: Global,
    circuits: &Q,
    front: ClaimFront,
) -> Result<Result<Claim, Refusal<ClaimRefusal>>, NoMemory>
    requires { IsClaimFront front }
    ensures value { IfOk result
        (λ claim. claim ≡ claim_with front (plan_for (Q.admitted circuits.now) front.head)) }
    ensures right { IfOk result (λ claim. IfOk claim (IsClaim (Q.admitted circuits.now))) }
{
    let ClaimFront { head, seals } = front;
    match circuits.plan(alloc, &head)? {
        None => Ok(Err(Refusal::Front(ClaimRefusal::Public))),
        Some(plan) => {
            let statement = Statement::of(alloc, head.auction, head.lanes, seals, plan)?;
            Ok(Ok(Opened { head, statement }))
        }
    }
}
