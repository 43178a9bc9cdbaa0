// An auction of three seals, whose files an independent implementation made. The files themselves
// are replayed by the program `conformance`; of the lines of one seal and of one lane SHA-256 is
// compared.
ghost use Rattle.std.specs.Prelude.{◌≡◌, length, IfOk, IsSome};
ghost use Rattle.vk_keeper.specs.Auctions.{IsAuction, challenge_of, seed_of};
ghost use Rattle.vk_reply.specs.Values.{IsChallenge};

use super::auctions::joined;
use sha2::{Digest, Sha256};
use std::alloc::Global;
use std::process::Abort;
use std::test::Fail;
use vk_board::{lane_text, seal_lines_text};
use vk_job::Job;
use vk_keeper::{Auction, Phase};
use vk_reply::{Challenge, reply_lane_text};
use vk_residue::NoMemory;
use vk_seq::Seq;
use vk_vickrey::Sale;

const ID: [u8; 16] = [0, 1, 2, 3, 4, 5, 6, 7, 8, 9, 10, 11, 12, 13, 14, 15];

const SEED: [u8; 32] = [0x5a; 32];

// Of the lines of lane 2 of the reply to the bits 0, 1 and 0.
const SECOND_LANE: [u8; 32] = [
    0xac, 0x11, 0x43, 0xc6, 0x4e, 0x1a, 0xb5, 0x90, 0x04, 0x07, 0x15, 0x73, 0x9c, 0xa1, 0x01, 0xc4,
    0x85, 0x36, 0x4f, 0x51, 0xb6, 0x13, 0xab, 0xaf, 0x85, 0xa1, 0x5d, 0x90, 0x4a, 0x3e, 0x0c, 0xac,
];

// Of the lines of the third seal on the board, and behind them those of its lane 2.
const SEAL_AND_LANE: [u8; 32] = [
    0xa8, 0x45, 0xf9, 0xe4, 0x03, 0x39, 0xcd, 0x8a, 0x96, 0x75, 0xbb, 0xe8, 0x03, 0x74, 0x92, 0xbe,
    0x03, 0xed, 0xa7, 0x82, 0x70, 0x12, 0x7e, 0xe1, 0x21, 0x28, 0x84, 0xe5, 0x6e, 0x8b, 0x91, 0xcd,
];

/// The seed of the bidder at that seat: the seat as a number of 32 bytes.
fn bidder_seed(seat: u16) -> [u8; 32] {
    let mut seed = [0; 32];
    seed[30..].copy_from_slice(&seat.to_be_bytes());
    seed
}

/// An auction of width 3 and three lanes, of which the last of three seals wins.
fn with_seals(alloc: Global) -> Result<Auction, Fail>
    ensures right { IfOk result IsAuction }
    ensures seals { IfOk result (λ auction. length auction.seals ≡ 3) }
    ensures lanes { IfOk result (λ auction. auction.lanes ≡ 3) }
{
    let opened = Auction {
        id: ID,
        version: 1,
        width: 3,
        lanes: 3,
        reserve: 0,
        phase: Phase::Taking,
        seals: Seq::new(alloc),
    };
    let first = joined(alloc, opened, &bidder_seed(300), 300, 6)?;
    let second = joined(alloc, first, &bidder_seed(20), 20, 3)?;
    let third = joined(alloc, second, &bidder_seed(1), 1, 7)?;
    Ok(third)
}

/// A challenge of three bits.
fn challenge(alloc: Global, bits: &[bool; 3]) -> Result<Challenge, Fail>
    ensures challenge { IfOk result IsChallenge }
    ensures bits { IfOk result (λ challenge. length challenge.bits ≡ 3) }
{
    let bits = Seq::from_vec(Vec::from_slice(alloc, bits)?);
    Ok(Challenge { bits })
}

/// The auction once it is proved and answered.
fn answered(alloc: Global, seed: &[u8; 32], bits: &[bool; 3]) -> Result<Auction, Fail>
    ensures right { IfOk result IsAuction }
    ensures seeded { IfOk result (λ auction. IsSome (seed_of auction.phase)) }
    ensures answered { IfOk result (λ auction. IsSome (challenge_of auction.phase)) }
    ensures seals { IfOk result (λ auction. length auction.seals ≡ 3) }
    ensures lanes { IfOk result (λ auction. auction.lanes ≡ 3) }
{
    let challenge = challenge(alloc, bits)?;
    let mut auction = with_seals(alloc)?;
    auction.phase = Phase::Answered {
        seed: *seed,
        challenge,
    };
    Ok(auction)
}

#[test]
fn what_is_published_and_replied_is_as_elsewhere(rt: HostRuntime) -> Result<(), Fail> {
    let auction = answered(rt.alloc(), &SEED, &[false, true, false])?;
    let job = Job::of(rt.alloc(), auction)?;
    try_job(&rt, rt.alloc(), &job)?;
    try_published(&rt, rt.alloc(), &job)
}

fn try_job(rt: &impl Abort, alloc: Global, job: &Job) -> Result<(), Fail>
    requires answered { IsSome (challenge_of job.now.auction.phase) }
    requires lanes { job.now.auction.lanes ≡ 3 }
{
    let sold = Sale::Sold {
        position: 3,
        price: 6,
    };
    assert!(rt; job.sale() == sold);
    assert!(rt; (job.winner(), job.head().winner, job.board_pieces()) == (Some(1), Some(1), 8));
    let shown = job.reply(alloc, 2)?;
    let text = reply_lane_text(alloc, 2, shown.as_slice())?;
    assert!(rt; Sha256::digest(text.as_slice()) == SECOND_LANE);
    Ok(())
}

/// The third seal and lane 2 are those of the board.
fn try_published(rt: &impl Abort, alloc: Global, job: &Job) -> Result<(), Fail>
    requires seals { length job.now.auction.seals ≡ 3 }
    requires lanes { job.now.auction.lanes ≡ 3 }
{
    let mut text = seal_of(alloc, job)?;
    let lane = lane_of(alloc, job)?;
    text.extend_from_slice(lane.as_slice())?;
    assert!(rt; Sha256::digest(text.as_slice()) == SEAL_AND_LANE);
    Ok(())
}

fn seal_of(alloc: Global, job: &Job) -> Result<Vec<u8>, NoMemory>
    requires { length job.now.auction.seals ≡ 3 }
{
    let seal = job.seal(alloc, 3)?;
    let text = seal_lines_text(alloc, &seal)?;
    Ok(text)
}

fn lane_of(alloc: Global, job: &Job) -> Result<Vec<u8>, NoMemory>
    requires { job.now.auction.lanes ≡ 3 }
{
    let lane = job.lane(alloc, 2)?;
    let text = lane_text(alloc, 2, &lane)?;
    Ok(text)
}
