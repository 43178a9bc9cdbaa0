// Four messages hashed side by side.
ghost use Rattle.std.specs.Prelude.{◌≡◌, ◌<◌, ℕ, map};
ghost use Rattle.sha2.specs.Sha256.{digest_bytes, initial_hash_256, sha256};
ghost use Rattle.vk_digests.specs.Lanes.{lane};

use crate::blocks::{first_words, last_word};
use crate::constants::INITIAL_HASH;
use crate::rounds::{compress, compress_last};
use std::simd::u32x4;

/// The SHA-256 digest (FIPS 180-4, 6.2) of each of four messages of 68 bytes.
pub fn digests(messages: &[[u8; 68]; 4]) -> [[u8; 32]; 4]
    ensures { result ≡ map sha256 messages.now }
{
    let first = compress(initial_hash(), first_words(messages));
    let hash = compress_last(first, last_word(messages));
    [
        digest(&hash, 0),
        digest(&hash, 1),
        digest(&hash, 2),
        digest(&hash, 3),
    ]
}

/// The initial hash value in each lane (5.3.3).
fn initial_hash() -> [u32x4; 8]
    ensures { (j : ℕ) → j < 4 → lane j result ≡ initial_hash_256 }
{
    [
        u32x4::splat(INITIAL_HASH[0]),
        u32x4::splat(INITIAL_HASH[1]),
        u32x4::splat(INITIAL_HASH[2]),
        u32x4::splat(INITIAL_HASH[3]),
        u32x4::splat(INITIAL_HASH[4]),
        u32x4::splat(INITIAL_HASH[5]),
        u32x4::splat(INITIAL_HASH[6]),
        u32x4::splat(INITIAL_HASH[7]),
    ]
}

/// The hash value in lane `j` as bytes.
fn digest(hash: &[u32x4; 8], j: usize) -> [u8; 32]
    requires { j < 4 }
    ensures { result ≡ digest_bytes (lane j hash.now) 8 }
{
    let mut out = [0u8; 32];
    'words: for i in 0..8 {
        let word = hash[i].to_array()[j];
        out[4 * i..4 * i + 4].copy_from_slice(&word.to_be_bytes());
    }
    out
}
