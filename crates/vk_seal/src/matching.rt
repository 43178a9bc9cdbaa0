ghost use Rattle.std.specs.Prelude.{◌≡◌, ◌↔◌, ◌<◌, ◌≤◌, ◌^◌, length, IsOk};
ghost use Rattle.vk_seal.specs.Made.{seal_of};
ghost use Rattle.vk_seal.specs.Match.{match_of, com_match, half_match, coms_match};

use crate::making::commit_lane;
use crate::secret::{Seal, Secret, XTape};
use vk_wire::WireCom;

/// The first field in which a seal isn't that of a secret. `kept` is the seal's, `given` and `made`
/// are the secret's, and the two differ.
#[derive(Clone, Copy, Debug, PartialEq, Eq)]
pub enum Mismatch {
    Auction {
        kept: [u8; 16],
        given: [u8; 16],
    },
    Seat {
        kept: u16,
        given: u16,
    },
    Lanes {
        kept: u32,
        given: u32,
    },
    Digest {
        lane: u32,
        second: bool,
        kept: [u8; 32],
        made: [u8; 32],
    },
}

/// Whether a seal is that of a secret. The auction, the seat and the number of lanes are tested in
/// this order, and then the digests lane by lane.
pub fn matches(secret: &Secret, seal: &Seal) -> Result<(), Mismatch>
    requires small_bid { secret.now.bid < 2 ^ 40 }
    requires few_lanes { length secret.now.lanes ≤ 64 }
    requires few_kept { length seal.now.lanes ≤ 64 }
    ensures found { result ≡ match_of secret.now seal.now }
    ensures exact { IsOk result ↔ (seal.now ≡ seal_of secret.now) }
{
    let found = first_mismatch(secret, seal);
    found
}

/// The first field in which a seal isn't that of a secret.
fn first_mismatch(secret: &Secret, seal: &Seal) -> Result<(), Mismatch>
    requires small_bid { secret.now.bid < 2 ^ 40 }
    requires few_lanes { length secret.now.lanes ≤ 64 }
    requires few_kept { length seal.now.lanes ≤ 64 }
    ensures { result ≡ match_of secret.now seal.now }
{
    if seal.auction != secret.auction {
        return Err(Mismatch::Auction {
            kept: seal.auction,
            given: secret.auction,
        });
    }
    if seal.seat != secret.seat {
        return Err(Mismatch::Seat {
            kept: seal.seat,
            given: secret.seat,
        });
    }
    if seal.lanes.len() != secret.lanes.len() {
        return Err(Mismatch::Lanes {
            kept: seal.lanes.len() as u32,
            given: secret.lanes.len() as u32,
        });
    }
    let found = match_lanes(secret, secret.lanes.as_slice(), seal.lanes.as_slice());
    found
}

/// The first lane, and the first half of it, in which the kept commitments aren't the secret's.
fn match_lanes(secret: &Secret, tapes: &[XTape], coms: &[WireCom]) -> Result<(), Mismatch>
    requires small_bid { secret.now.bid < 2 ^ 40 }
    requires few_lanes { length tapes.now ≤ 64 }
    requires one_each { length coms.now ≡ length tapes.now }
    ensures { result ≡ coms_match secret.now.auction secret.now.seat secret.now.bid 1 tapes.now
        coms.now }
{
    for (index, tape) in tapes.iter().enumerate() {
        let lane = index as u16 + 1;
        let made = commit_lane(&secret.auction, secret.seat, secret.bid, lane, tape);
        match_lane(lane, &coms[index], &made)?;
    }
    Ok(())
}

/// The first half in which the kept commitments of a lane aren't those made from the secret.
fn match_lane(lane: u16, kept: &WireCom, made: &WireCom) -> Result<(), Mismatch>
    ensures { result ≡ com_match lane kept.now made.now }
{
    match_half(lane, false, &kept.first, &made.first)?;
    match_half(lane, true, &kept.second, &made.second)?;
    Ok(())
}

/// Whether the kept commitment of a half is the one made from the secret.
fn match_half(lane: u16, second: bool, kept: &[u8; 32], made: &[u8; 32]) -> Result<(), Mismatch>
    ensures { result ≡ half_match lane second kept.now made.now }
{
    if kept != made {
        return Err(Mismatch::Digest {
            lane: u32::from(lane),
            second,
            kept: *kept,
            made: *made,
        });
    }
    Ok(())
}
