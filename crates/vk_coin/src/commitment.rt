// The commitment to a share.
ghost use Rattle.std.specs.Prelude.{◌≡◌, ◌+◌, ◌≤◌, ◌++◌, if◌then◌else◌, length, take};
ghost use Rattle.vk_coin.specs.Shares.{bits_number, share_digest, share_message};

use crate::share::Share;
use sha2::{Digest, Sha256};

/// The commitment to a share, which is the auditor's part of a coin: SHA-256 (FIPS 180-4) of a
/// message of 64 bytes.
///
/// The message has, with numbers big-endian, the letters `VKJ1`, the auction, the auditor, the
/// number of bits, the key, and the bits as a number of 64 binary digits, that of lane 1 first.
pub fn share_commit(share: &Share) -> [u8; 32]
    requires few_bits { length share.now.bits ≤ 64 }
    ensures digest { result ≡ share_digest share.now }
{
    let message = message_of(share);
    Sha256::digest(message.as_slice())
}

/// The 64 bytes that are hashed.
fn message_of(share: &Share) -> [u8; 64]
    requires few_bits { length share.now.bits ≤ 64 }
    ensures { result ≡ share_message share.now }
{
    let count = share.bits.len() as u16;
    let number = bits_number(share.bits.as_slice());
    let mut bytes = [0u8; 64];
    put(&mut bytes, 0, b"VKJ1");
    put(&mut bytes, 4, &share.auction);
    put(&mut bytes, 20, &share.auditor.to_be_bytes());
    put(&mut bytes, 22, &count.to_be_bytes());
    put(&mut bytes, 24, &share.key);
    put(&mut bytes, 56, &number.to_be_bytes());
    bytes
}

/// Writes `piece` at the place `at`, and leaves what stands before it.
fn put(bytes: &mut [u8; 64], at: usize, piece: &[u8])
    requires { at + length piece.now ≤ 64 }
    ensures { take (at + length piece.now) bytes.new ≡ take at bytes.old ++ piece.now }
{
    bytes[at..at + piece.len()].copy_from_slice(piece);
}

/// Bits as a number of 64 binary digits: the first is the highest, and there are zeros after the
/// last.
fn bits_number(bits: &[bool]) -> u64
    ensures { result ≡ bits_number bits.now }
{
    let mut number: u64 = 0;
    let mut weight: u64 = 1 << 63;
    for bit in bits {
        number += digit(*bit, weight);
        weight /= 2;
    }
    number
}

/// What a binary digit of that weight counts.
fn digit(bit: bool, weight: u64) -> u64
    ensures { result ≡ (if bit then weight else 0) }
{
    if bit { weight } else { 0 }
}
