//! The row of an auction and that of its terms, but for its seals.

ghost use Rattle.std.specs.Prelude.{◌≡◌, ◌↔◌, ℕ, ◌≤◌, None, pos, [], IsTrue, IfOk, IfSome};
ghost use Rattle.vk_residue.specs.Limits.{IsSize};
ghost use Rattle.vk_keeper.specs.Auctions.{IsAuction, IsTerms, seed_of, challenge_of};
ghost use Rattle.vk_keeper.specs.declared.auction.Auction.{Auction as AnyAuction};
ghost use Rattle.vk_keeper.specs.declared.auction.Phase.{Phase as AnyPhase};
ghost use Rattle.vk_keeper.specs.declared.auction.Phase.TheVariants.{Taking};
ghost use Rattle.vk_commit.specs.Values.{AreBytes};
ghost use Rattle.vk_reply.specs.Values.{IsChallenge};
ghost use Rattle.sqlite.specs.Order.{column};
ghost use Rattle.sqlite.specs.declared.types.Value.TheVariants.{Int};
ghost use Rattle.vk_rows.specs.Columns.{IsPhase, ShowsPhase, ShowsSize, ShowsTerms, phase_number, phase_of};
ghost use Rattle.vk_rows.specs.Refusals.{MissesNone};

use crate::columns::{amount_at, challenge_at, number_at, seed_at};
use sqlite::Row;
use std::alloc::Global;
use vk_io::OutsideErr;
use vk_keeper::{Auction, Phase};
use vk_reply::Challenge;
use vk_seq::Seq;

/// The auction of that id, width and number of lanes, on its terms, before it has a seal.
pub fn taking_from(
    alloc: Global,
    id: &[u8; 16],
    head: &Row,
    terms: &Row,
) -> Result<Auction, OutsideErr>
    ensures id { IfOk result (λ auction. auction.id ≡ id.now) }
    ensures size { IfOk result (ShowsSize head.now) }
    ensures terms { IfOk result (ShowsTerms terms.now) }
    ensures taking { IfOk result (λ auction. auction.phase ≡ Taking) }
    ensures none { IfOk result (λ auction. auction.seals ≡ []) }
    ensures right { IfOk result IsAuction }
    ensures exact { MissesNone (λ (auction : AnyAuction).
        IsAuction auction × ShowsSize head.now auction × ShowsTerms terms.now auction) result }
{
    let (width, lanes) = size_from(head)?;
    let (version, reserve) = terms_from(terms, width)?;
    let (phase, seals) = (Phase::Taking, Seq::new(alloc));
    Ok(Auction {
        id: *id,
        version,
        width,
        lanes,
        reserve,
        phase,
        seals,
    })
}

/// The width and the number of lanes.
fn size_from(head: &Row) -> Result<(u32, u32), OutsideErr>
    ensures width { IfOk result (λ size. column head.now 0 ≡ Int (pos size.0)) }
    ensures lanes { IfOk result (λ size. column head.now 1 ≡ Int (pos size.1)) }
    ensures right { IfOk result (λ size. IsSize size.0 size.1) }
    ensures exact { MissesNone (λ (size : ℕ × ℕ). IsSize size.0 size.1
        × (column head.now 0 ≡ Int (pos size.0)) × (column head.now 1 ≡ Int (pos size.1))) result }
{
    let width = number_at(head, 0)?;
    let lanes = number_at(head, 1)?;
    if !is_size(width, lanes) {
        return Err(OutsideErr::Failed);
    }
    Ok((width, lanes))
}

/// Whether an auction may have that width and so many lanes.
fn is_size(width: u32, lanes: u32) -> bool
    ensures { IsTrue result ↔ IsSize width lanes }
{
    1 <= width && width <= 40 && 1 <= lanes && lanes <= 64
}

/// The version and the reserve of an auction of that width.
fn terms_from(row: &Row, width: u32) -> Result<(u32, u64), OutsideErr>
    requires { width ≤ 40 }
    ensures version { IfOk result (λ terms. column row.now 0 ≡ Int (pos terms.0)) }
    ensures reserve { IfOk result (λ terms. column row.now 1 ≡ Int (pos terms.1)) }
    ensures right { IfOk result (λ terms. IsTerms terms.0 width terms.1) }
    ensures exact { MissesNone (λ (terms : ℕ × ℕ). IsTerms terms.0 width terms.1
        × (column row.now 0 ≡ Int (pos terms.0)) × (column row.now 1 ≡ Int (pos terms.1))) result }
{
    let version = number_at(row, 0)?;
    let reserve = amount_at(row, 1)?;
    if !are_terms(version, width, reserve) {
        return Err(OutsideErr::Failed);
    }
    Ok((version, reserve))
}

/// Whether an auction of that width may have these terms.
fn are_terms(version: u32, width: u32, reserve: u64) -> bool
    requires { width ≤ 40 }
    ensures { IsTrue result ↔ IsTerms version width reserve }
{
    match version {
        1 => reserve == 0,
        2 => reserve < 1 << width,
        _ => false,
    }
}

/// The phase, by its number and what is kept with it.
pub fn phase_from(alloc: Global, head: &Row) -> Result<Phase, OutsideErr>
    ensures shown { IfOk result (ShowsPhase head.now) }
    ensures right { IfOk result IsPhase }
    ensures exact { MissesNone (λ (phase : AnyPhase). IsPhase phase × ShowsPhase head.now phase)
        result }
{
    let number = number_at(head, 2)?;
    let seed = seed_at(head, 3)?;
    let challenge = challenge_at(alloc, head, 4)?;
    let phase = phase_of(number, seed, challenge).ok_or(OutsideErr::Failed)?;
    Ok(phase)
}

/// The phase of that number, which has a seed from 1 on and a challenge at 2.
fn phase_of(number: u32, seed: Option<[u8; 32]>, challenge: Option<Challenge>) -> Option<Phase>
    requires seed { IfSome seed (AreBytes 32) }
    requires challenge { IfSome challenge IsChallenge }
    ensures value { result ≡ phase_of number seed challenge }
    ensures parts { IfSome result
        (λ phase. (number ≡ phase_number phase) × (seed ≡ seed_of phase)
        × (challenge ≡ challenge_of phase)) }
    ensures right { IfSome result IsPhase }
{
    match (number, seed, challenge) {
        (0, None, None) => Some(Phase::Taking),
        (1, Some(seed), None) => Some(Phase::Proved { seed }),
        (2, Some(seed), Some(challenge)) => Some(Phase::Answered { seed, challenge }),
        _ => None,
    }
}

/// The auction in that phase. None where it has no seal yet or the challenge isn't of its lanes.
pub fn in_phase(mut auction: Auction, phase: Phase) -> Option<Auction>
    requires auction { IsAuction auction }
    requires phase { IsPhase phase }
    ensures value { IfSome result (λ after. after ≡ record auction { phase = phase }) }
    ensures right { IfSome result IsAuction }
    ensures exact { result ≡ None → ¬ IsAuction (record auction { phase = phase }) }
{
    let fits = match &phase {
        Phase::Taking => true,
        Phase::Proved { .. } => !auction.seals.is_empty(),
        Phase::Answered { challenge, .. } => {
            !auction.seals.is_empty() && challenge.bits.len() == auction.lanes as usize
        }
    };
    if !fits {
        return None;
    }
    auction.phase = phase;
    Some(auction)
}
