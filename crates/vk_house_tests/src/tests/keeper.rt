ghost use Rattle.std.specs.Prelude.{◌≡◌, ◌≤◌, [], length, IfOk};
ghost use Rattle.vk_reply.specs.Values.{IsChallenge};
ghost use Rattle.vk_keeper.specs.Common.{IsAuction, IsFirstAuction};

use super::auctions::joined;
use std::alloc::Global;
use std::process::Abort;
use std::test::Fail;
use vk_io::OutsideErr;
use vk_keeper::{Auction, FirstAuction, Keeper, MemKeeper, Phase};
use vk_reply::Challenge;
use vk_seq::Seq;

const ONE: [u8; 16] = [1; 16];

const TWO: [u8; 16] = [2; 16];

const ID: [u8; 16] = [0, 1, 2, 3, 4, 5, 6, 7, 8, 9, 10, 11, 12, 13, 14, 15];

const SEED: [u8; 32] = [
    0, 1, 2, 3, 4, 5, 6, 7, 8, 9, 10, 11, 12, 13, 14, 15, 16, 17, 18, 19, 20, 21, 22, 23, 24, 25,
    26, 27, 28, 29, 30, 31,
];

/// An auction that takes seals and has none yet.
fn opened(alloc: Global, id: &[u8; 16], width: u32) -> Auction
    requires some_width { 1 ≤ width }
    requires last_width { width ≤ 40 }
    ensures right { IsAuction result }
    ensures made { result ≡ record {
      id = id.now;
      version = 1;
      width = width;
      lanes = 2;
      reserve = 0;
      phase = Phase.Taking;
      seals = [];
    } }
{
    Auction {
        id: *id,
        version: 1,
        width,
        lanes: 2,
        reserve: 0,
        phase: Phase::Taking,
        seals: Seq::new(alloc),
    }
}

/// The width of the auction that a keeper has under that id.
fn width_of<K: Keeper>(keeper: &mut K, id: &[u8; 16]) -> Result<Option<u32>, OutsideErr> {
    let found = keeper.get(id)?;
    Ok(found.map(|auction| auction.width))
}

#[test]
fn an_auction_is_kept_under_its_id(rt: HostRuntime) -> Result<(), Fail> {
    try_widths(&rt, rt.alloc(), &mut MemKeeper::new(rt.alloc()))
}

// What is tried borrows the keeper: nothing is dropped where an assertion ends it, and so it is
// proved fast.

fn try_widths<K: Keeper>(rt: &impl Abort, alloc: Global, keeper: &mut K) -> Result<(), Fail> {
    assert!(rt; width_of(keeper, &ONE)? == None);
    keeper.put(opened(alloc, &ONE, 4))?;
    keeper.put(opened(alloc, &TWO, 9))?;
    assert!(rt; width_of(keeper, &ONE)? == Some(4));
    keeper.put(opened(alloc, &ONE, 5))?;
    assert!(rt; width_of(keeper, &ONE)? == Some(5));
    assert!(rt; width_of(keeper, &TWO)? == Some(9));
    Ok(())
}

#[test]
fn the_named_calls_fail_and_change_nothing(rt: HostRuntime) -> Result<(), Fail> {
    let mut keeper = MemKeeper::new(rt.alloc());
    keeper.fail_at(2)?;
    keeper.fail_at(3)?;
    try_failing(&rt, rt.alloc(), &mut keeper)
}

fn try_failing<K: Keeper>(rt: &impl Abort, alloc: Global, keeper: &mut K) -> Result<(), Fail> {
    keeper.put(opened(alloc, &ONE, 4))?;
    let refused = keeper.put(opened(alloc, &ONE, 5));
    assert!(rt; refused == Err(OutsideErr::Failed));
    let unanswered = width_of(keeper, &ONE);
    assert!(rt; unanswered == Err(OutsideErr::Failed));
    assert!(rt; width_of(keeper, &ONE)? == Some(4));
    Ok(())
}

/// A challenge of the bits 0 and 1.
fn challenge(alloc: Global) -> Result<Challenge, Fail>
    ensures challenge { IfOk result IsChallenge }
    ensures bits { IfOk result (λ challenge. length challenge.bits ≡ 2) }
{
    let bits = Seq::from_vec(Vec::from_slice(alloc, &[false, true])?);
    Ok(Challenge { bits })
}

/// An auction of two lanes that takes seals and has three.
fn with_seals(alloc: Global, id: &[u8; 16]) -> Result<Auction, Fail>
    ensures right { IfOk result IsAuction }
    ensures seals { IfOk result (λ auction. length auction.seals ≡ 3) }
    ensures lanes { IfOk result (λ auction. auction.lanes ≡ 2) }
{
    let first = joined(alloc, opened(alloc, id, 8), &SEED, 7, 15)?;
    let second = joined(alloc, first, &SEED, 300, 255)?;
    let third = joined(alloc, second, &SEED, 65535, 0)?;
    Ok(third)
}

/// The same once it is proved.
fn proved(alloc: Global, id: &[u8; 16], seed: &[u8; 32]) -> Result<Auction, Fail>
    ensures { IfOk result IsAuction }
{
    let mut auction = with_seals(alloc, id)?;
    auction.phase = Phase::Proved { seed: *seed };
    Ok(auction)
}

/// The same once it is answered.
fn answered(alloc: Global, id: &[u8; 16], seed: &[u8; 32]) -> Result<Auction, Fail>
    ensures { IfOk result IsAuction }
{
    let challenge = challenge(alloc)?;
    let mut auction = with_seals(alloc, id)?;
    auction.phase = Phase::Answered {
        seed: *seed,
        challenge,
    };
    Ok(auction)
}

/// Checks the seals of an auction that was copied, in lane 2 by what another implementation drew.
fn check_seals(rt: &impl Abort, auction: &Auction) -> Result<(), Fail> {
    let rows = auction.seals.as_slice();
    assert!(rt; rows.len() == 3);
    let first = &rows[0];
    assert!(rt; (first.seal.seat, first.secret.bid) == (7, 15));
    let tape = first.secret.lanes.as_slice().get(1).ok_or("no lane 2")?;
    assert!(rt; tape.mask.get() == 348017112954609804);
    let last = &rows[2];
    assert!(rt; (last.seal.seat, last.secret.seat) == (65535, 65535));
    assert!(rt; last.secret.bid == 0);
    assert!(rt; (last.seal.lanes.len(), last.secret.lanes.len()) == (2, 2));
    Ok(())
}

#[test]
fn a_copy_has_every_part(rt: HostRuntime) -> Result<(), Fail> {
    let alloc = rt.alloc();
    let auction = answered(alloc, &ID, &SEED)?;
    let copy = auction.copy(alloc)?;
    check_copy(&rt, &copy)
}

fn check_copy(rt: &impl Abort, copy: &Auction) -> Result<(), Fail> {
    assert!(rt; (copy.id, copy.width, copy.lanes) == (ID, 8, 2));
    let Phase::Answered { seed, challenge } = &copy.phase else {
        return Err(Fail::from("another phase"));
    };
    assert!(rt; *seed == SEED);
    assert!(rt; challenge.bits.as_slice() == [false, true].as_slice());
    check_seals(rt, copy)?;
    Ok(())
}

#[test]
fn three_auctions_with_seals_are_kept(rt: HostRuntime) -> Result<(), Fail> {
    try_three(&rt, rt.alloc(), &mut MemKeeper::new(rt.alloc()))
}

fn try_three<K: Keeper>(rt: &impl Abort, alloc: Global, keeper: &mut K) -> Result<(), Fail> {
    keeper.put(with_seals(alloc, &ONE)?)?;
    keeper.put(answered(alloc, &TWO, &SEED)?)?;
    keeper.put(proved(alloc, &ID, &SEED)?)?;
    check_proved(rt, &found(keeper, &ID)?)?;
    check_answered(rt, &found(keeper, &TWO)?);
    check_taking(rt, &found(keeper, &ONE)?);
    Ok(())
}

fn found<K: Keeper>(keeper: &mut K, id: &[u8; 16]) -> Result<Auction, Fail> {
    let found = keeper.get(id)?.ok_or("not kept")?;
    Ok(found)
}

fn check_proved(rt: &impl Abort, found: &Auction) -> Result<(), Fail> {
    let Phase::Proved { seed } = &found.phase else {
        return Err(Fail::from("another phase"));
    };
    assert!(rt; *seed == SEED);
    check_seals(rt, found)?;
    Ok(())
}

fn check_answered(rt: &impl Abort, found: &Auction) {
    assert!(rt; found.seals.len() == 3);
    assert!(rt; matches!(found.phase, Phase::Answered { .. }));
}

fn check_taking(rt: &impl Abort, found: &Auction) {
    assert!(rt; found.seals.len() == 3);
    assert!(rt; matches!(found.phase, Phase::Taking));
}

/// The auction as it was kept before auctions had a version and a reserve.
fn first_of(auction: Auction) -> FirstAuction
    requires { IsAuction auction }
    ensures { IsFirstAuction result }
{
    let Auction {
        id,
        width,
        lanes,
        phase,
        seals,
        ..
    } = auction;
    FirstAuction {
        id,
        width,
        lanes,
        phase,
        seals,
    }
}

#[test]
fn an_auction_from_before_is_kept_in_version_1(rt: HostRuntime) -> Result<(), Fail> {
    let first = first_of(answered(rt.alloc(), &ID, &SEED)?);
    let firsts = Vec::from_array(rt.alloc(), [first])?;
    let mut keeper = MemKeeper::lifted(rt.alloc(), firsts)?;
    check_lifted(&rt, &found(&mut keeper, &ID)?)
}

fn check_lifted(rt: &impl Abort, found: &Auction) -> Result<(), Fail> {
    assert!(rt; (found.version, found.reserve) == (1, 0));
    check_copy(rt, found)
}
