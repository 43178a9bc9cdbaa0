ghost use Rattle.std.specs.Prelude.{◌≡◌, ◌*◌, ◌+◌, ◌^◌, ◌++◌, codes};
ghost use Rattle.sha2.specs.Sha256.{sha256};
ghost use Rattle.vk_dice.specs.Stream.{word_at, words_ahead};

use crate::words::Words;
use rand_chacha::ChaCha20Rng;
use rand_core::SeedableRng;
use rand_core::utils::NextWord;
use sha2::{Digest, Sha256};
use std::marker::Model;

/// The words of a ChaCha20 stream, two 32-bit words each, the first as the lower half. The stream
/// repeats after 2^67 words.
#[derive(Drop)]
pub struct ChaChaWords {
    generator: ChaCha20Rng,
}

impl Model for ChaChaWords {
    ghost use Rattle.std.specs.Prelude.{◌<◌, ◌^◌};
    ghost use Rattle.rand_chacha.specs.ChaCha.{ChaCha};

    ghost Value = { ChaCha };

    ghost view = { λ w. w.generator };

    ghost invariant = { λ w. w.generator.word_pos < 2 ^ 68 };
}

impl ChaChaWords {
    /// The words of that stream, for the key that is SHA-256 of `VKT1`, the seed and the auction's
    /// id.
    pub fn of(seed: &[u8; 32], auction: &[u8; 16], stream: u64) -> ChaChaWords
        ensures { words_ahead result ≡ word_at seed.now auction.now stream }
    {
        let mut generator = ChaCha20Rng::from_seed(key_bytes(seed, auction));
        generator.set_stream(stream);
        ChaChaWords { generator }
    }
}

/// SHA-256 of `VKT1`, the seed and the auction's id.
fn key_bytes(seed: &[u8; 32], auction: &[u8; 16]) -> [u8; 32]
    ensures { result ≡ sha256 (codes "VKT1" ++ seed.now ++ auction.now) }
{
    let mut hasher = Sha256::new();
    hasher.update(b"VKT1".as_slice());
    hasher.update(seed.as_slice());
    hasher.update(auction.as_slice());
    hasher.finalize()
}

impl Words for ChaChaWords {
    ghost use Rattle.vk_dice.specs.Stream.{words_ahead};

    ghost ahead = { words_ahead };

    fn next(&mut self) -> u64 {
        let low = self.generator.next_word();
        let high = self.generator.next_word();
        u64::from(low) + (u64::from(high) << 32)
    }
}
