ghost use Rattle.std.specs.Prelude.{◌≡◌, ◌+◌, ◌++◌, ◌≤◌, length, map, not, take, IfOk};
ghost use Rattle.std.specs.Int.{from_be_bytes, w16, w32};
ghost use Rattle.vk_report.specs.Samples.{AreSizes, IsCaseOf, IsSampleCase, auction_sizes, bid_of, bidder_seed, case_of, digest_at, first_bits, front_number, id_of, message_of, sample_of, seat_of};

use crate::bits::leading_bits;
use sha2::{Digest, Sha256};
use std::alloc::Global;
use vk_reply::Challenge;
use vk_residue::NoMemory;
use vk_seq::Seq;

/// What a sample is to have.
#[derive(Clone, Copy, Debug, PartialEq, Eq)]
pub struct Sizes {
    /// What is hashed before the number.
    pub letters: [u8; 4],
    /// How many seals, 1 to 48.
    pub seals: u32,
    /// How many bits a bid has: 8, 16 or 32.
    pub width: u32,
    /// How many lanes, 1 to 64.
    pub lanes: u32,
}

/// An auction that is to be held: what its house and its bidders bring, and two challenges.
#[derive(Debug, Drop)]
pub struct SampleCase {
    /// Each bid is below 2^width.
    pub width: u32,
    /// How many lanes there are.
    pub lanes: u32,
    /// The id of the auction.
    pub auction: [u8; 16],
    /// The auctioneer's seed.
    pub seed: [u8; 32],
    /// The seat of each seal, from 101 on.
    pub seats: Seq<u16>,
    /// The seed of each bidder.
    pub seeds: Seq<[u8; 32]>,
    /// The bid of each bidder.
    pub bids: Seq<u64>,
    /// The bit of each lane.
    pub first: Challenge,
    /// The other bit in each lane.
    pub second: Challenge,
}

/// The sample of that number: an auction of 20 seals with bids below 2^32, in 40 lanes. Errs for
/// want of memory alone.
pub fn sample_case(alloc: Global, number: u64) -> Result<SampleCase, NoMemory>
    ensures sample { IfOk result (λ sample. sample ≡ sample_of number) }
    ensures right { IfOk result IsSampleCase }
{
    let sizes = Sizes {
        letters: *b"VKS1",
        seals: 20,
        width: 32,
        lanes: 40,
    };
    let sample = case_of(alloc, &sizes, number)?;
    Ok(sample)
}

/// The sample of these sizes. Errs for want of memory alone.
#[tactic(auto, using(crate::proofs::Samples::made_is_case))]
pub fn case_of(alloc: Global, sizes: &Sizes, number: u64) -> Result<SampleCase, NoMemory>
    requires { AreSizes sizes.now }
    ensures case { IfOk result (λ case. case ≡ case_of sizes.now number) }
    ensures right { IfOk result (IsCaseOf sizes.now) }
{
    let case = made_case(alloc, sizes, number)?;
    Ok(case)
}

/// Makes the parts of the sample in turn.
#[tactic(auto, unfolding(crate::specs::Samples::case_of))]
fn made_case(alloc: Global, sizes: &Sizes, number: u64) -> Result<SampleCase, NoMemory>
    requires { AreSizes sizes.now }
    ensures { IfOk result (λ case. case ≡ case_of sizes.now number) }
{
    let mut seats = Seq::new(alloc);
    let mut seeds = Seq::new(alloc);
    let mut bids = Seq::new(alloc);
    for index in 0..sizes.seals {
        let seal = index as u8 + 1;
        seats.push(seat_of(seal))?;
        seeds.push(bidder_seed(sizes, number, seal))?;
        bids.push(bid_of(sizes, number, seal))?;
    }
    let first = first_bits(alloc, sizes, number)?;
    let second = other_bits(alloc, first.as_slice())?;
    Ok(SampleCase {
        width: sizes.width,
        lanes: sizes.lanes,
        auction: id_of(sizes, number),
        seed: digest_at(sizes.letters, number, 1),
        seats,
        seeds,
        bids,
        first: Challenge { bits: first },
        second: Challenge { bits: second },
    })
}

/// SHA-256 of the message of these letters and that number, with that byte.
#[tactic(auto, unfolding(crate::specs::Samples::digest_at))]
pub fn digest_at(letters: [u8; 4], number: u64, byte: u8) -> [u8; 32]
    ensures { result ≡ digest_at letters number byte }
{
    let message = message_of(letters, number, byte);
    Sha256::digest(message.as_slice())
}

/// The 13 bytes that are hashed.
#[tactic(auto, unfolding(crate::specs::Samples::message_of))]
fn message_of(letters: [u8; 4], number: u64, byte: u8) -> [u8; 13]
    ensures { result ≡ message_of letters number byte }
{
    let mut message = [0u8; 13];
    put(&mut message, 0, &letters);
    put(&mut message, 4, &number.to_be_bytes());
    put(&mut message, 12, &[byte]);
    message
}

/// Writes `piece` at the place `at`, and leaves what stands before it.
fn put(message: &mut [u8; 13], at: usize, piece: &[u8])
    requires { at + length piece.now ≤ 13 }
    ensures { take (at + length piece.now) message.new ≡ take at message.old ++ piece.now }
{
    message[at..at + piece.len()].copy_from_slice(piece);
}

/// The id of the auction.
fn id_of(sizes: &Sizes, number: u64) -> [u8; 16]
    ensures { result ≡ id_of sizes.now number }
{
    let digest = digest_at(sizes.letters, number, 0);
    let mut id = [0; 16];
    id.copy_from_slice(&digest[..16]);
    id
}

/// Seals count from 1.
fn seat_of(seal: u8) -> u16
    ensures { result ≡ seat_of seal }
{
    100 + u16::from(seal)
}

/// The seed of the bidder whose seal it is.
fn bidder_seed(sizes: &Sizes, number: u64, seal: u8) -> [u8; 32]
    requires { seal ≤ 48 }
    ensures { result ≡ bidder_seed sizes.now number seal }
{
    digest_at(sizes.letters, number, 16 + seal)
}

/// The bid of the bidder whose seal it is.
#[tactic(auto, unfolding(crate::specs::Samples::bid_of))]
fn bid_of(sizes: &Sizes, number: u64, seal: u8) -> u64
    requires { seal ≤ 48 }
    ensures { result ≡ bid_of sizes.now number seal }
{
    let digest = digest_at(sizes.letters, number, 64 + seal);
    front_number(sizes.width, &digest)
}

/// The first byte of a digest where the width is 8, the first 2 bytes, big-endian, where it is 16,
/// and else the first 4.
fn front_number(width: u32, digest: &[u8; 32]) -> u64
    ensures { result ≡ front_number width digest.now }
{
    if width == 8 {
        return u64::from(digest[0]);
    }
    if width == 16 {
        return u64::from(first_half(digest));
    }
    u64::from(first_word(digest))
}

/// The first 2 bytes of a digest, big-endian.
fn first_half(digest: &[u8; 32]) -> u16
    ensures { result ≡ from_be_bytes w16 (take 2 digest.now) }
{
    let mut front = [0; 2];
    front.copy_from_slice(&digest[..2]);
    u16::from_be_bytes(front)
}

/// The first 4 bytes of a digest, big-endian.
fn first_word(digest: &[u8; 32]) -> u32
    ensures { result ≡ from_be_bytes w32 (take 4 digest.now) }
{
    let mut front = [0; 4];
    front.copy_from_slice(&digest[..4]);
    u32::from_be_bytes(front)
}

/// The bits of the first challenge.
#[tactic(auto, unfolding(crate::specs::Samples::first_bits))]
fn first_bits(alloc: Global, sizes: &Sizes, number: u64) -> Result<Seq<bool>, NoMemory>
    ensures { IfOk result (λ bits. bits ≡ first_bits sizes.now number) }
{
    let digest = digest_at(sizes.letters, number, 2);
    let bits = leading_bits(alloc, &digest, sizes.lanes)?;
    Ok(bits)
}

/// The other bit of each.
fn other_bits(alloc: Global, bits: &[bool]) -> Result<Seq<bool>, NoMemory>
    ensures { IfOk result (λ others. others ≡ map not bits.now) }
{
    let mut others = Seq::new(alloc);
    for bit in bits {
        others.push(!*bit)?;
    }
    Ok(others)
}
