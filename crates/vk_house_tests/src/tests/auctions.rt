// Auctions whose seals were made by their bidders.
ghost use Rattle.std.specs.Prelude.{◌≡◌, ◌+◌, ◌≤◌, length, IfOk};
ghost use Rattle.vk_keeper.specs.Auctions.{IsAuction};

use std::alloc::Global;
use std::test::Fail;
use vk_dice::ChaChaWords;
use vk_keeper::{Auction, SealRow};
use vk_seal::make_seal;

/// The auction with the seal of that bid, which may join and was made with that seed.
pub fn joined(
    alloc: Global,
    mut auction: Auction,
    seed: &[u8; 32],
    seat: u16,
    bid: u64,
) -> Result<Auction, Fail>
    requires auction { IsAuction auction }
    requires some_seat { 1 ≤ seat }
    ensures right { IfOk result IsAuction }
    ensures seals { IfOk result (λ joined. length joined.seals ≡ length auction.seals + 1) }
    ensures lanes { IfOk result (λ joined. joined.lanes ≡ auction.lanes) }
{
    let mut words = ChaChaWords::of(seed, &auction.id, 65536 + u64::from(seat));
    let (width, lanes) = (auction.width, auction.lanes);
    let (secret, seal) = make_seal(alloc, bid, seat, &auction.id, width, lanes, &mut words)?;
    if auction.refusal(&seal, &secret).is_some() {
        return Err(Fail::from("refused"));
    }
    auction.join(SealRow { seal, secret })?;
    Ok(auction)
}
