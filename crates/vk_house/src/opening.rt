//! `announce`, `announce_reserve` and `submit`: an auction begins, and takes seals.

ghost use Rattle.std.specs.Prelude.{◌≡◌, ◌+◌, ◌<◌, ◌≤◌, ◌^◌, ◌⊎◌, IfNone, IfSome, IfOk, IsOk, IsErrOf, None, Some, length, true, false};
ghost use Rattle.std.specs.Result.{result_err};
ghost use Rattle.vk_residue.specs.Limits.{IsSize};
ghost use Rattle.vk_seal.specs.Values.{IsSeal, IsSecret};
ghost use Rattle.vk_keeper.specs.Auctions.{IsAuction};
ghost use Rattle.vk_house.specs.Commands.{announcing, Submit};
ghost use Rattle.vk_house.specs.Deciding.{Decides};
ghost use Rattle.vk_house.specs.Replies.{Done, Position};
ghost use Rattle.vk_house.specs.Tests.{not_taking};
ghost use Rattle.vk_house.specs.Refusals.{refusal_of};
ghost use Rattle.vk_house.specs.Steps.{step_at};

use crate::errors::HouseErr;
use crate::found::Found;
use crate::standing::PhaseName;
use std::alloc::Global;
use vk_keeper::{Auction, Phase, SealRow};
use vk_seal::{Seal, Secret};
use vk_seq::Seq;

/// The version and the reserve of an auction that begins with that one, if one is named.
fn terms_of(reserve: Option<u64>) -> (u32, u64)
    ensures first { IfNone reserve (result ≡ (1, 0)) }
    ensures second { IfSome reserve (λ reserve. result ≡ (2, reserve)) }
{
    match reserve {
        None => (1, 0),
        Some(reserve) => (2, reserve),
    }
}

/// The auction that begins with that reserve, if one is named, by what was found under the id. It
/// takes no memory.
#[tactic(auto, unfolding(crate::specs::Steps::step_at, vk_keeper::specs::Joining::first_of))]
pub fn decide_announce(
    alloc: Global,
    found: Found,
    width: u32,
    lanes: u32,
    reserve: Option<u64>,
) -> Result<Auction, HouseErr>
    requires size { IsSize width lanes }
    requires small { IfSome reserve (λ reserve. reserve < 2 ^ width) }
    ensures decided { Decides (λ auction. record { reply = Done; kept = Some auction }) result
        (step_at (announcing found.id width lanes reserve) found.auction) }
    ensures right { IfOk result IsAuction }
    ensures id { IfOk result (λ auction. auction.id ≡ found.id) }
    ensures passes { IfOk result
        (λ _. refusal_of (announcing found.id width lanes reserve) found.auction ≡ None) }
    ensures memory { IsErrOf result HouseErr.NoMemory → ⊥ }
{
    if found.auction.is_some() {
        return Err(HouseErr::Known);
    }
    let (version, reserve) = terms_of(reserve);
    Ok(Auction {
        id: found.id,
        version,
        reserve,
        width,
        lanes,
        phase: Phase::Taking,
        seals: Seq::new(alloc),
    })
}

/// Errs where seals are no longer taken.
fn check_taking(phase: &Phase) -> Result<(), HouseErr>
    ensures { result_err result ≡ not_taking phase.now }
{
    match phase {
        Phase::Taking => Ok(()),
        Phase::Proved { .. } => Err(HouseErr::Phase {
            kept: PhaseName::Proved,
        }),
        Phase::Answered { .. } => Err(HouseErr::Phase {
            kept: PhaseName::Answered,
        }),
    }
}

/// What `submit` keeps and answers.
#[derive(Drop)]
pub struct Joined {
    pub auction: Auction,
    /// That of its last seal, from 1.
    pub position: u32,
}

/// What `submit` keeps and answers, by what was found under the id. A refusal is told whatever
/// memory there is.
#[tactic(auto, unfolding(crate::specs::Steps::step_at, vk_keeper::specs::Joining::first_of))]
pub fn decide_submit(found: Found, seal: Seal, secret: Secret) -> Result<Joined, HouseErr>
    requires found { IfSome found.auction IsAuction }
    requires own { IfSome found.auction (λ auction. auction.id ≡ found.id) }
    requires seal { IsSeal seal }
    requires secret { IsSecret secret }
    ensures decided { Decides (λ joined. record {
      reply = Position joined.position;
      kept = Some joined.auction;
    }) result (step_at (Submit found.id seal secret) found.auction) }
    ensures right { IfOk result (λ joined. IsAuction joined.auction) }
    ensures id { IfOk result (λ joined. joined.auction.id ≡ found.id) }
    ensures inside { IsErrOf result HouseErr.KeeperFailed → ⊥ }
    ensures memory { IsOk result ⊎ IsErrOf result HouseErr.NoMemory
        → refusal_of (Submit found.id seal secret) found.auction ≡ None }
{
    let mut auction = found.auction.ok_or(HouseErr::Unknown)?;
    check_taking(&auction.phase)?;
    if let Some(refusal) = auction.refusal(&seal, &secret) {
        return Err(HouseErr::from(refusal));
    }
    auction.join(SealRow { seal, secret })?;
    let position = auction.seals.len() as u32;
    Ok(Joined { auction, position })
}
