//! `show`: how an auction stands.

ghost use Rattle.std.specs.Prelude.{◌≡◌, IfSome, IsErrOf};
ghost use Rattle.vk_keeper.specs.Auctions.{IsAuction};
ghost use Rattle.vk_house.specs.Commands.{Show};
ghost use Rattle.vk_house.specs.Deciding.{Decides};
ghost use Rattle.vk_house.specs.Replies.{standing_of, phase_name, reserve_of, Stands};
ghost use Rattle.vk_house.specs.Steps.{step_at};

use crate::errors::HouseErr;
use crate::found::Found;
use vk_keeper::{Auction, Phase};

/// How far an auction has come.
#[derive(Clone, Copy, Debug, PartialEq, Eq)]
pub enum PhaseName {
    /// Seals are taken.
    Taking,
    /// The board was made.
    Proved,
    /// A challenge was answered.
    Answered,
}

/// How an auction stands.
#[derive(Clone, Copy, Debug, PartialEq, Eq)]
pub struct Standing {
    /// 1 to 40.
    pub width: u32,
    /// 1 to 64.
    pub lanes: u32,
    /// How many seals are held. At most 64.
    pub seals: u32,
    pub phase: PhaseName,
    /// Below 2^width. None in version 1, which names none.
    pub reserve: Option<u64>,
}

impl Standing {
    /// That of an auction.
    pub fn of(auction: &Auction) -> Standing
        requires { IsAuction auction.now }
        ensures { result ≡ standing_of auction.now }
    {
        Standing {
            width: auction.width,
            lanes: auction.lanes,
            seals: auction.seals.len() as u32,
            phase: PhaseName::of(&auction.phase),
            reserve: reserve_of(auction),
        }
    }
}

/// The reserve that an auction names.
fn reserve_of(auction: &Auction) -> Option<u64>
    ensures { result ≡ reserve_of auction.now }
{
    if auction.version == 1 {
        return None;
    }
    Some(auction.reserve)
}

impl PhaseName {
    /// That of a phase.
    pub fn of(phase: &Phase) -> PhaseName
        ensures { result ≡ phase_name phase.now }
    {
        match phase {
            Phase::Taking => PhaseName::Taking,
            Phase::Proved { .. } => PhaseName::Proved,
            Phase::Answered { .. } => PhaseName::Answered,
        }
    }
}

/// What `show` answers of the auction that was found. It takes no memory.
#[tactic(auto, unfolding(crate::specs::Steps::step_at, vk_keeper::specs::Joining::first_of))]
pub fn decide_show(found: Found) -> Result<Standing, HouseErr>
    requires { IfSome found.auction IsAuction }
    ensures decided { Decides (λ standing. record { reply = Stands standing; kept = None }) result
        (step_at (Show found.id) found.auction) }
    ensures inside { IsErrOf result HouseErr.KeeperFailed → ⊥ }
    ensures memory { IsErrOf result HouseErr.NoMemory → ⊥ }
{
    let auction = found.auction.ok_or(HouseErr::Unknown)?;
    let standing = Standing::of(&auction);
    Ok(standing)
}
