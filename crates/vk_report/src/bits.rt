//! The bits that a digest gives to a challenge.

ghost use Rattle.std.specs.Prelude.{◌≡◌, ◌==◌, ◌<◌, IfOk};
ghost use Rattle.std.specs.Int.{bit_at};
ghost use Rattle.vk_report.specs.Bits.{bits_of, leading_bits};

use std::alloc::Global;
use vk_residue::NoMemory;
use vk_seq::Seq;

/// The first `count` bits of the 256 that a digest has, the most significant of each byte first.
/// Errs for want of memory alone.
pub fn leading_bits(alloc: Global, digest: &[u8; 32], count: u32) -> Result<Seq<bool>, NoMemory>
    ensures { IfOk result (λ bits. bits ≡ leading_bits count digest.now) }
{
    let bytes = digest.as_slice();
    let mut bits = Vec::new(alloc);
    for byte in bytes {
        bits.extend_from_slice(&bits_of(*byte))?;
    }
    bits.truncate(count as usize);
    Ok(Seq::from_vec(bits))
}

/// The bits of a byte, the most significant first.
fn bits_of(byte: u8) -> [bool; 8]
    ensures { result ≡ bits_of byte }
{
    [
        bit_at(byte, 7),
        bit_at(byte, 6),
        bit_at(byte, 5),
        bit_at(byte, 4),
        bit_at(byte, 3),
        bit_at(byte, 2),
        bit_at(byte, 1),
        bit_at(byte, 0),
    ]
}

/// The bit at a place of a byte, the least significant at 0.
fn bit_at(byte: u8, place: u32) -> bool
    requires { place < 8 }
    ensures { result ≡ (bit_at byte place == 1) }
{
    (byte >> place) % 2 == 1
}
