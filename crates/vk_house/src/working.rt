//! `prove` and `answer`: the work on an auction whose seals are taken.

ghost use Rattle.std.specs.Prelude.{◌≡◌, ◌≤◌, ◌⊎◌, IfSome, IfOk, IsOk, IsErrOf, IsSome, is_some, None, Some, length};
ghost use Rattle.std.specs.Result.{result_err};
ghost use Rattle.vk_reply.specs.Values.{IsChallenge};
ghost use Rattle.vk_keeper.specs.Auctions.{IsAuction, seed_of, challenge_of};
ghost use Rattle.vk_house.specs.Commands.{Prove, Answer};
ghost use Rattle.vk_house.specs.Deciding.{Decides, IsDecisionOn, IsDryAtMost, own_dry, work_step, step_of, phased};
ghost use Rattle.vk_house.specs.Tests.{no_seals, other_seed, still_taking, other_length, other_than, other_challenge};
ghost use Rattle.vk_house.specs.Refusals.{refusal_of};
ghost use Rattle.vk_house.specs.Steps.{step_at, phase_proved, phase_answered};

use crate::errors::HouseErr;
use crate::found::Found;
use crate::standing::PhaseName;
use std::alloc::Global;
use vk_job::Job;
use vk_keeper::{Auction, Phase};
use vk_reply::Challenge;
use vk_residue::NoMemory;
use vk_seq::Seq;

/// What is answered of an auction, and the auction that is kept anew, if one is.
#[derive(Drop)]
pub struct Decision {
    pub job: Job,
    pub kept: Option<Auction>,
}

/// The work on the auction in that phase, which is then kept anew, or in its own. All memory is
/// taken here.
fn work_in(alloc: Global, mut auction: Auction, phase: Option<Phase>) -> Result<Decision, HouseErr>
    requires right { IsAuction (phased auction phase) }
    requires seeded { IsSome (seed_of (phased auction phase).phase) }
    ensures decided { Decides step_of result (work_step auction phase) }
    ensures job { IfOk result (λ decision. decision.job.auction ≡ phased auction phase) }
    ensures kept { IfOk result
        (λ decision. IfSome decision.kept (λ auction. auction ≡ decision.job.auction)) }
    ensures right { IfOk result (λ decision. IfSome decision.kept IsAuction) }
    ensures memory { IsOk result ⊎ IsErrOf result HouseErr.NoMemory
        → own_dry (phased auction phase) ≡ None }
{
    let is_new = phase.is_some();
    if let Some(phase) = phase {
        auction.phase = phase;
    }
    let job = Job::of(alloc, auction)?;
    let kept = if is_new {
        let copy = job.auction().copy(alloc)?;
        Some(copy)
    } else {
        None
    };
    Ok(Decision { job, kept })
}

/// Errs where no seal is held.
fn check_seals(auction: &Auction) -> Result<(), HouseErr>
    ensures { result_err result ≡ no_seals auction.now.seals }
{
    if auction.seals.is_empty() {
        return Err(HouseErr::NoSeals);
    }
    Ok(())
}

/// Errs where another seed is kept.
fn check_seed(auction: &Auction, seed: &[u8; 32]) -> Result<(), HouseErr>
    ensures { result_err result ≡ other_seed seed.now auction.now.phase }
{
    match &auction.phase {
        Phase::Proved { seed: kept } | Phase::Answered { seed: kept, .. } if kept != seed => {
            Err(HouseErr::OtherSeed { kept: *kept })
        }
        _ => Ok(()),
    }
}

/// The phase that proving brings, where it is another.
fn proved_phase(phase: &Phase, seed: &[u8; 32]) -> Option<Phase>
    ensures { result ≡ phase_proved seed.now phase.now }
{
    match phase {
        Phase::Taking => Some(Phase::Proved { seed: *seed }),
        _ => None,
    }
}

/// What `prove` answers and keeps, by what was found under the id. A refusal, a dry seed too, is
/// told whatever memory there is.
#[tactic(auto, unfolding(crate::specs::Steps::step_at, vk_keeper::specs::Joining::first_of))]
pub fn decide_prove(alloc: Global, found: Found, seed: &[u8; 32]) -> Result<Decision, HouseErr>
    requires found { IfSome found.auction IsAuction }
    requires own { IfSome found.auction (λ auction. auction.id ≡ found.id) }
    ensures decided { Decides step_of result
        (step_at (Prove found.id seed.now) found.auction) }
    ensures inside { IsErrOf result HouseErr.KeeperFailed → ⊥ }
    ensures on { IfOk result (IsDecisionOn found.id) }
    ensures seed { IfOk result (λ decision. seed_of decision.job.auction.phase ≡ Some seed.now) }
    ensures memory { IsOk result ⊎ IsErrOf result HouseErr.NoMemory
        → refusal_of (Prove found.id seed.now) found.auction ≡ None }
{
    let auction = found.auction.ok_or(HouseErr::Unknown)?;
    check_seals(&auction)?;
    check_seed(&auction, seed)?;
    let phase = proved_phase(&auction.phase, seed);
    let decision = work_in(alloc, auction, phase);
    decision
}

/// Errs where seals are still taken.
fn check_proved(phase: &Phase) -> Result<(), HouseErr>
    ensures { result_err result ≡ still_taking phase.now }
{
    if matches!(phase, Phase::Taking) {
        let kept = PhaseName::Taking;
        return Err(HouseErr::Phase { kept });
    }
    Ok(())
}

/// Errs where the challenge doesn't have a bit for each lane.
fn check_length(auction: &Auction, challenge: &Challenge) -> Result<(), HouseErr>
    requires { IsChallenge challenge.now }
    ensures { result_err result ≡ other_length challenge.now auction.now.lanes }
{
    let given = challenge.bits.len() as u32;
    if given != auction.lanes {
        let kept = auction.lanes;
        return Err(HouseErr::Length { kept, given });
    }
    Ok(())
}

fn copy_challenge(alloc: Global, challenge: &Challenge) -> Result<Challenge, NoMemory>
    ensures { IfOk result (λ copy. copy ≡ challenge.now) }
{
    let bits = Vec::from_slice(alloc, challenge.bits.as_slice())?;
    Ok(Challenge {
        bits: Seq::from_vec(bits),
    })
}

/// The auction, where no other challenge is kept of it. It takes no memory.
fn check_challenge(auction: Auction, challenge: &Challenge) -> Result<Auction, HouseErr>
    ensures other { result_err result ≡ other_challenge challenge.now auction.phase }
    ensures same { IfOk result (λ checked. checked ≡ auction) }
{
    if !is_other(&auction.phase, challenge) {
        return Ok(auction);
    }
    let Auction { phase, .. } = auction;
    match phase {
        Phase::Answered {
            challenge: kept,
            ..
        } => Err(HouseErr::OtherChallenge { kept }),
        _ => unreachable!(),
    }
}

/// Whether another challenge is kept.
fn is_other(phase: &Phase, challenge: &Challenge) -> bool
    ensures { result ≡ is_some (other_than challenge.now (challenge_of phase.now)) }
{
    match phase {
        Phase::Answered {
            challenge: kept,
            ..
        } => kept.bits.as_slice() != challenge.bits.as_slice(),
        _ => false,
    }
}

/// The phase that answering brings, where it is another.
fn answered_phase(
    alloc: Global,
    phase: &Phase,
    challenge: &Challenge,
) -> Result<Option<Phase>, NoMemory>
    ensures { IfOk result (λ other. other ≡ phase_answered challenge.now phase.now) }
{
    match phase {
        Phase::Proved { seed } => {
            let challenge = copy_challenge(alloc, challenge)?;
            Ok(Some(Phase::Answered {
                seed: *seed,
                challenge,
            }))
        }
        _ => Ok(None),
    }
}

/// What `answer` answers and keeps, by what was found under the id. A refusal, but for a dry seed,
/// is told whatever memory there is.
#[tactic(auto, unfolding(crate::specs::Steps::step_at, vk_keeper::specs::Joining::first_of))]
pub fn decide_answer(
    alloc: Global,
    found: Found,
    challenge: &Challenge,
) -> Result<Decision, HouseErr>
    requires found { IfSome found.auction IsAuction }
    requires own { IfSome found.auction (λ auction. auction.id ≡ found.id) }
    requires challenge { IsChallenge challenge.now }
    ensures decided { Decides step_of result
        (step_at (Answer found.id challenge.now) found.auction) }
    ensures inside { IsErrOf result HouseErr.KeeperFailed → ⊥ }
    ensures on { IfOk result (IsDecisionOn found.id) }
    ensures answered { IfOk result
        (λ decision. challenge_of decision.job.auction.phase ≡ Some challenge.now) }
    ensures memory { IsOk result ⊎ IsErrOf result HouseErr.NoMemory
        → IsDryAtMost (refusal_of (Answer found.id challenge.now) found.auction) }
{
    let auction = found.auction.ok_or(HouseErr::Unknown)?;
    check_proved(&auction.phase)?;
    check_length(&auction, challenge)?;
    let auction = check_challenge(auction, challenge)?;
    let phase = answered_phase(alloc, &auction.phase, challenge)?;
    let decision = work_in(alloc, auction, phase);
    decision
}
