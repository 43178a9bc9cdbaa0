// The words of the two blocks of a padded message of 68 bytes, four messages side by side.
ghost use Rattle.std.specs.Prelude.{◌≡◌, ◌+◌, ◌<◌, ◌≤◌, ℕ, List, drop, length, slice_index, slice_index_or, take, []};
ghost use Rattle.sha2.specs.Sha256.{first_words, padded_message, word_at};
ghost use Rattle.vk_digests.specs.Lanes.{lane};

use std::simd::u32x4;

/// A bit 1 and then zeros: what comes behind the last four bytes of a message (5.1.1).
const BIT: u32 = 0x8000_0000;

/// The length of a message, in bits.
const LENGTH: u32 = 544;

/// The sixteen words of each message's first block (5.2.1).
pub(crate) fn first_words(messages: &[[u8; 68]; 4]) -> [u32x4; 16]
    ensures { (j : ℕ) → j < 4 → length (slice_index_or messages.now j []) ≡ 68 → lane j result
        ≡ first_words (take 64 (padded_message (slice_index_or messages.now j []))) 16 }
{
    let mut words = [u32x4::splat(0); 16];
    'load: for i in 0..16 {
        words[i] = words_at(messages, 4 * i);
    }
    words
}

/// The first word of each message's last block.
pub(crate) fn last_word(messages: &[[u8; 68]; 4]) -> u32x4
    ensures words { (j : ℕ) → j < 4
        → slice_index result j ≡ word_at (slice_index_or messages.now j []) 64 }
    ensures sizes { (j : ℕ) → j < 4 → length (slice_index_or messages.now j []) ≡ 68 }
{
    words_at(messages, 64)
}

/// The sixteen words of the last block of messages, whose last four bytes are that word: it, and
/// the padding.
#[inline(always)]
pub(crate) fn last_words(last: u32x4) -> [u32x4; 16]
    ensures { (j : ℕ) → j < 4 → (message : List ℕ) → length message ≡ 68
        → slice_index last j ≡ word_at message 64
        → lane j result ≡ first_words (drop 64 (padded_message message)) 16 }
{
    let mut words = [u32x4::splat(0); 16];
    words[0] = last;
    words[1] = u32x4::splat(BIT);
    words[15] = u32x4::splat(LENGTH);
    words
}

/// The word of each message that begins at its byte `at`.
#[inline(always)]
fn words_at(messages: &[[u8; 68]; 4], at: usize) -> u32x4
    requires { at + 4 ≤ 68 }
    ensures words { (j : ℕ) → j < 4
        → slice_index result j ≡ word_at (slice_index_or messages.now j []) at }
    ensures sizes { (j : ℕ) → j < 4 → length (slice_index_or messages.now j []) ≡ 68 }
{
    u32x4::from_array([
        load(&messages[0], at),
        load(&messages[1], at),
        load(&messages[2], at),
        load(&messages[3], at),
    ])
}

#[inline(always)]
fn load(message: &[u8; 68], at: usize) -> u32
    requires { at + 4 ≤ 68 }
    ensures word { result ≡ word_at message.now at }
    ensures size { length message.now ≡ 68 }
{
    u32::from_be_bytes([
        message[at],
        message[at + 1],
        message[at + 2],
        message[at + 3],
    ])
}
