ghost use Rattle.std.specs.Prelude.{◌≡◌, map, IfOk};
ghost use Rattle.vk_keeper.specs.Auctions.{IsAuction};
ghost use Rattle.vk_keeper.specs.First.{IsFirstAuction, lifted};

use crate::auction::{Auction, FirstAuction};
use std::alloc::Global;
use vk_residue::NoMemory;

impl Auction {
    /// The auction as it goes on: of version 1, with no reserve. Takes no memory.
    pub fn lifted(first: FirstAuction) -> Auction
        ensures value { result ≡ lifted first }
        ensures right { IsFirstAuction first → IsAuction result }
    {
        let FirstAuction {
            id,
            width,
            lanes,
            phase,
            seals,
        } = first;
        Auction {
            id,
            version: 1,
            width,
            lanes,
            reserve: 0,
            phase,
            seals,
        }
    }
}

/// Each of them lifted, in their order. Errs for want of memory alone.
pub fn lifted_each(alloc: Global, firsts: Vec<FirstAuction>) -> Result<Vec<Auction>, NoMemory>
    ensures { IfOk result (λ auctions. auctions.items ≡ map lifted firsts.items) }
{
    let auctions = firsts.into_iter().map(Auction::lifted).collect(alloc)?;
    Ok(auctions)
}
