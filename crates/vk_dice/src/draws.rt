ghost use Rattle.std.specs.Prelude.{◌≡◌, ℕ, ◌<◌, ◌^◌, ◌++◌, ◌↔◌, Some, None};
ghost use Rattle.std.specs.Result.{result_ok};
ghost use Rattle.std.specs.Int.{w64, to_be_bytes};
ghost use Rattle.vk_residue.specs.Residue.{modulus};
ghost use Rattle.vk_dice.specs.Words.{later};
ghost use Rattle.vk_dice.specs.Draws.{drawn_by, drawn_residue, after_residue, drawn_key, drawn_bit, IsOneOfEight};

use crate::words::Words;
use vk_residue::{MODULUS, Residue};

/// How many words one draw of a residue looks at, at most.
const WORDS_TRIED: u32 = 4;

/// No residue could be drawn: the low 61 bits of each of the next four words were all set.
#[derive(Clone, Copy, Debug, PartialEq, Eq)]
pub struct DrySeed;

/// Draws a residue: the low 61 bits of the next word. A word whose low 61 bits are all set is
/// rejected and the next one is taken, up to four words. Afterwards the words ahead are those after
/// the last one looked at.
pub fn draw_residue<W: Words>(words: &mut W) -> Result<Residue, DrySeed>
    ensures drawn { result_ok result ≡ drawn_residue (W.ahead words.old) }
    ensures after { W.ahead words.new ≡ after_residue (W.ahead words.old) }
{
    for tried in 0..WORDS_TRIED {
        let word = words.next();
        if let Some(residue) = residue_of(word) {
            return Ok(residue);
        }
    }
    Err(DrySeed)
}

/// The residue that a word draws. None where the word is rejected.
fn residue_of(word: u64) -> Option<Residue>
    ensures { result ≡ drawn_by word }
{
    Residue::new(word & MODULUS)
}

/// Draws a key: four words, each as 8 bytes from the highest to the lowest.
pub fn draw_key<W: Words>(words: &mut W) -> [u8; 32]
    ensures drawn { result ≡ drawn_key (W.ahead words.old) }
    ensures after { W.ahead words.new ≡ later 4 (W.ahead words.old) }
{
    let front = draw_half(words);
    let back = draw_half(words);
    let mut key = [0; 32];
    key[..16].copy_from_slice(&front);
    key[16..].copy_from_slice(&back);
    key
}

/// Two words, each as 8 bytes from the highest to the lowest.
fn draw_half<W: Words>(words: &mut W) -> [u8; 16]
    ensures drawn { result ≡ to_be_bytes w64 (W.ahead words.old 0)
        ++ to_be_bytes w64 (W.ahead words.old 1) }
    ensures after { W.ahead words.new ≡ later 2 (W.ahead words.old) }
{
    let first = words.next();
    let second = words.next();
    let mut half = [0; 16];
    half[..8].copy_from_slice(&first.to_be_bytes());
    half[8..].copy_from_slice(&second.to_be_bytes());
    half
}

/// Draws a bit: the lowest bit of the next word.
pub fn draw_bit<W: Words>(words: &mut W) -> bool
    ensures drawn { result ≡ drawn_bit (W.ahead words.old) }
    ensures after { W.ahead words.new ≡ later 1 (W.ahead words.old) }
{
    words.next() % 2 == 1
}

/// A law: of the words of 64 bits exactly eight draw each residue.
pub fn each_residue_is_drawn_by_eight_words()
    ensures { (residue word : ℕ) → residue < modulus
        → ((word < 2 ^ 64) × (drawn_by word ≡ Some residue) ↔ IsOneOfEight residue word) }
{}

/// A law: of the words of 64 bits exactly eight are rejected.
pub fn eight_words_are_rejected()
    ensures { (word : ℕ) → ((word < 2 ^ 64) × (drawn_by word ≡ None) ↔ IsOneOfEight modulus word) }
{}
