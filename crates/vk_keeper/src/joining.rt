ghost use Rattle.std.specs.Prelude.{◌≡◌, None, OnOk, OnErr};
ghost use Rattle.vk_seal.specs.Values.{IsSeal, IsSecret};
ghost use Rattle.vk_keeper.specs.Auctions.{IsAuction};
ghost use Rattle.vk_keeper.specs.Joining.{join_refusal, is_taken, with_last};

use crate::auction::{Auction, SealRow};
use vk_residue::NoMemory;
use vk_seal::{Mismatch, Seal, Secret, matches};

/// Why a seal and its secret may not join an auction.
#[derive(Clone, Copy, Debug, PartialEq, Eq)]
pub enum Refusal {
    /// 64 seals are held.
    Full,
    /// The seal is of another auction, the given one.
    OtherAuction { given: [u8; 16] },
    /// A held seal has the seat.
    SeatTaken,
    /// The auction has the kept number of lanes, and the seal the given one.
    Length { kept: u32, given: u32 },
    /// The bid isn't below 2^width.
    BidTooLarge,
    /// The seal isn't that of the secret.
    Mismatch(Mismatch),
}

impl Auction {
    /// Why this seal and its secret may not join, the first that holds in the order of [`Refusal`].
    /// None where they may. Takes no memory.
    #[tactic(auto, unfolding(crate::specs::Joining::first_of))]
    pub fn refusal(&self, seal: &Seal, secret: &Secret) -> Option<Refusal>
        requires auction { IsAuction self.now }
        requires seal { IsSeal seal.now }
        requires secret { IsSecret secret.now }
        ensures { result ≡ join_refusal self.now seal.now secret.now }
    {
        if self.seals.len() >= 64 {
            return Some(Refusal::Full);
        }
        if seal.auction != self.id {
            let given = seal.auction;
            return Some(Refusal::OtherAuction { given });
        }
        if is_seat_taken(self.seals.as_slice(), seal.seat) {
            return Some(Refusal::SeatTaken);
        }
        let given = seal.lanes.len() as u32;
        if given != self.lanes {
            let kept = self.lanes;
            return Some(Refusal::Length { kept, given });
        }
        if secret.bid >= 1 << self.width {
            return Some(Refusal::BidTooLarge);
        }
        let mismatch = matches(secret, seal).err()?;
        Some(Refusal::Mismatch(mismatch))
    }

    /// Puts a row that isn't refused last. Errs for want of memory alone, and then the auction is
    /// as before.
    pub fn join(&mut self, row: SealRow) -> Result<(), NoMemory>
        requires auction { IsAuction self.old }
        requires seal { IsSeal row.seal }
        requires secret { IsSecret row.secret }
        requires may_join { join_refusal self.old row.seal row.secret ≡ None }
        ensures joined { OnOk result (self.new ≡ with_last self.old row) }
        ensures refused { OnErr result (self.new ≡ self.old) }
        ensures right { IsAuction self.new }
    {
        self.seals.push(row)?;
        Ok(())
    }
}

/// Whether a held seal has that seat.
fn is_seat_taken(held: &[SealRow], seat: u16) -> bool
    ensures { result ≡ is_taken seat held.now }
{
    held.iter().any(|row| row.seal.seat == seat)
}
