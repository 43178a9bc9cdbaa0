// The message of a commitment and its digest.
ghost use Rattle.std.specs.Prelude.{◌≡◌, ◌+◌, ◌≤◌, ◌++◌, ◌↔◌, IsTrue, length, take};
ghost use Rattle.std.specs.Simd.Lanes.{zip2};
ghost use Rattle.vk_commit.specs.Commitment.{message, digest_of, opens_test, Opens};
ghost use Rattle.vk_commit.specs.Values.{AreBytes, IsOpening};
ghost use Rattle.vk_commit.specs.declared.place.Place.{Place};

use crate::place::{Opening, Place};
use sha2::{Digest, Sha256};
use vk_digests::digests;

/// The digest that commits to `opening` at `place`: SHA-256 (FIPS 180-4) of a message of 68 bytes.
///
/// The message has, with numbers big-endian, the letters `VKC1`, the auction, the seat, the lane,
/// the slot, the key and the value.
pub fn commit(place: &Place, opening: &Opening) -> [u8; 32]
    ensures digest { result ≡ digest_of place.now opening.now }
    ensures opening { IsOpening opening.now }
{
    let message = message_of(place, opening);
    Sha256::digest(message.as_slice())
}

/// The digests that commit to four openings, each at its place. They are hashed side by side, in
/// half of the time that four calls of `commit` take.
pub fn commit_four(places: &[Place; 4], openings: &[Opening; 4]) -> [[u8; 32]; 4]
    ensures { result ≡ zip2 digest_of places.now openings.now }
{
    let messages = [
        message_of(&places[0], &openings[0]),
        message_of(&places[1], &openings[1]),
        message_of(&places[2], &openings[2]),
        message_of(&places[3], &openings[3]),
    ];
    let made = digests(&messages);
    made
}

/// Whether `opening` opens `digest` at `place`.
#[tactic(auto, using(crate::proofs::Openings::opens_decides))]
pub fn opens(place: &Place, digest: &[u8; 32], opening: &Opening) -> bool
    ensures exactly { IsTrue result ↔ Opens place.now digest.now opening.now }
    ensures test { result ≡ opens_test place.now digest.now opening.now }
    ensures opening { IsOpening opening.now }
{
    let made = commit(place, opening);
    opens_made(digest, opening, &made)
}

/// Whether `opening` opens `digest`, wherever `made` is the digest that it makes.
#[tactic(auto, using(crate::proofs::Openings::is_opening_decides), unfolding(crate::specs::Commitment::opens_test))]
pub fn opens_made(digest: &[u8; 32], opening: &Opening, made: &[u8; 32]) -> bool
    ensures test { (place : Place) → made.now ≡ digest_of place opening.now
        → result ≡ opens_test place digest.now opening.now }
    ensures opening { IsOpening opening.now }
{
    is_an_opening(opening);
    made.as_slice() == digest.as_slice()
}

/// What the types of an opening say of it, for proofs.
fn is_an_opening(opening: &Opening)
    ensures { IsOpening opening.now }
{
    is_a_key(&opening.key);
    let _value = opening.value.get();
}

fn is_a_key(key: &[u8; 32])
    ensures { AreBytes 32 key.now }
{
    let _bytes = key.as_slice();
}

/// The 68 bytes that are hashed.
pub(crate) fn message_of(place: &Place, opening: &Opening) -> [u8; 68]
    ensures message { result ≡ message place.now opening.now }
    ensures opening { IsOpening opening.now }
{
    is_an_opening(opening);
    let mut bytes = [0u8; 68];
    put(&mut bytes, 0, b"VKC1");
    put(&mut bytes, 4, &place.auction);
    put(&mut bytes, 20, &place.seat.to_be_bytes());
    put(&mut bytes, 22, &place.lane.to_be_bytes());
    put(&mut bytes, 24, &place.slot.to_be_bytes());
    put(&mut bytes, 28, &opening.key);
    put(&mut bytes, 60, &opening.value.get().to_be_bytes());
    bytes
}

/// Writes `piece` at the place `at`, and leaves what stands before it.
fn put(bytes: &mut [u8; 68], at: usize, piece: &[u8])
    requires { at + length piece.now ≤ 68 }
    ensures { take (at + length piece.now) bytes.new ≡ take at bytes.old ++ piece.now }
{
    bytes[at..at + piece.len()].copy_from_slice(piece);
}
