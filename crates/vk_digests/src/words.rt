// The functions of SHA-256 on words (FIPS 180-4, 4.1.2), in each of four lanes.
ghost use Rattle.std.specs.Prelude.{◌≡◌, ◌/◌, ◌^◌, ◌<◌, ℕ, bit_xor, slice_index};
ghost use Rattle.std.specs.Int.{w32, rotate_right};
ghost use Rattle.sha2.specs.Sha256.{add32, ch, maj, big_sigma0, big_sigma1, small_sigma0, small_sigma1, round};
ghost use Rattle.vk_digests.specs.Lanes.{lane};

use std::simd::u32x4;

#[inline(always)]
pub(crate) fn add(x: u32x4, y: u32x4) -> u32x4
    ensures { (j : ℕ) → j < 4 → slice_index result j ≡ add32 (slice_index x j) (slice_index y j) }
{
    x + y
}

#[inline(always)]
#[tactic(auto, using(crate::proofs::Lanes::lanes))]
fn xor(x: u32x4, y: u32x4) -> u32x4
    ensures { (j : ℕ) → j < 4 → slice_index result j ≡ bit_xor (slice_index x j) (slice_index y j) }
{
    x ^ y
}

#[inline(always)]
#[tactic(auto, using(crate::proofs::Lanes::lanes))]
fn rotate_right(x: u32x4, k: u32) -> u32x4
    requires { (0 < k) × (k < 32) }
    ensures { (j : ℕ) → j < 4 → slice_index result j ≡ rotate_right w32 (slice_index x j) k }
{
    (x >> u32x4::splat(k)) | (x << u32x4::splat(32 - k))
}

#[inline(always)]
#[tactic(auto, using(crate::proofs::Lanes::lanes))]
fn shift_right(x: u32x4, k: u32) -> u32x4
    requires { k < 32 }
    ensures { (j : ℕ) → j < 4 → slice_index result j ≡ slice_index x j / 2 ^ k }
{
    x >> u32x4::splat(k)
}

#[inline(always)]
#[tactic(auto, using(crate::proofs::Lanes::lanes))]
fn ch(x: u32x4, y: u32x4, z: u32x4) -> u32x4
    ensures { (j : ℕ) → j < 4
        → slice_index result j ≡ ch (slice_index x j) (slice_index y j) (slice_index z j) }
{
    (x & y) ^ (!x & z)
}

/// Maj in four operations, where the standard writes five. Of these a round takes three, since its
/// `y` and `z` are the `x` and `y` of the round before.
#[inline(always)]
#[tactic(auto, using(crate::proofs::Lanes::lanes, crate::proofs::Majority::maj_in_four))]
fn maj(x: u32x4, y: u32x4, z: u32x4) -> u32x4
    ensures { (j : ℕ) → j < 4
        → slice_index result j ≡ maj (slice_index x j) (slice_index y j) (slice_index z j) }
{
    ((x ^ y) & (y ^ z)) ^ y
}

// The four functions below nest their rotations, as those of the sha2 crate do: that takes fewer
// copies of `x` than rotating it afresh each time.

#[inline(always)]
#[tactic(auto, using(crate::proofs::Lanes::lane_fits, crate::proofs::Rotations::big_sigma0_nested))]
fn big_sigma0(x: u32x4) -> u32x4
    ensures { (j : ℕ) → j < 4 → slice_index result j ≡ big_sigma0 (slice_index x j) }
{
    rotate_right(xor(x, rotate_right(xor(x, rotate_right(x, 9)), 11)), 2)
}

#[inline(always)]
#[tactic(auto, using(crate::proofs::Lanes::lane_fits, crate::proofs::Rotations::big_sigma1_nested))]
fn big_sigma1(x: u32x4) -> u32x4
    ensures { (j : ℕ) → j < 4 → slice_index result j ≡ big_sigma1 (slice_index x j) }
{
    rotate_right(xor(x, rotate_right(xor(x, rotate_right(x, 14)), 5)), 6)
}

#[inline(always)]
#[tactic(auto, using(crate::proofs::Lanes::lanes, crate::proofs::Lanes::lane_fits, crate::proofs::Rotations::small_sigma0_nested))]
pub(crate) fn small_sigma0(x: u32x4) -> u32x4
    ensures { (j : ℕ) → j < 4 → slice_index result j ≡ small_sigma0 (slice_index x j) }
{
    rotate_right(xor(x, rotate_right(x, 11)), 7) ^ shift_right(x, 3)
}

#[inline(always)]
#[tactic(auto, using(crate::proofs::Lanes::lanes, crate::proofs::Lanes::lane_fits, crate::proofs::Rotations::small_sigma1_nested))]
pub(crate) fn small_sigma1(x: u32x4) -> u32x4
    ensures { (j : ℕ) → j < 4 → slice_index result j ≡ small_sigma1 (slice_index x j) }
{
    rotate_right(xor(x, rotate_right(x, 2)), 17) ^ shift_right(x, 10)
}

/// One round (6.2.2, step 3).
#[inline(always)]
#[tactic(auto, using(crate::proofs::Lanes::lane_at))]
pub(crate) fn round(v: [u32x4; 8], k: u32, word: u32x4) -> [u32x4; 8]
    ensures { (j : ℕ) → j < 4 → lane j result ≡ round (lane j v) k (slice_index word j) }
{
    let [a, b, c, d, e, f, g, h] = v;
    let temp1 = add(
        add(add(add(h, big_sigma1(e)), ch(e, f, g)), u32x4::splat(k)),
        word,
    );
    let temp2 = add(big_sigma0(a), maj(a, b, c));
    [add(temp1, temp2), a, b, c, add(d, temp1), e, f, g]
}
