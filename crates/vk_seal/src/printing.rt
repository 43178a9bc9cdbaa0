//! What is printed of a seal that isn't a secret's. It takes no memory.

ghost use Rattle.std.specs.Prelude.{◌≡◌, ◌+◌, ◌≤◌, ◌++◌, length};
ghost use Rattle.vk_seal.specs.Mismatches.{half_number, mismatch_fields};

use crate::matching::Mismatch;
use vk_text::ShortText;

/// The text, and then the field in which a seal isn't the secret's.
pub fn with_mismatch(text: ShortText, mismatch: &Mismatch) -> ShortText
    requires room { length text ≤ 200 }
    ensures text { result ≡ text ++ mismatch_fields mismatch.now }
    ensures long { length result ≤ length text + 172 }
{
    match mismatch {
        Mismatch::Auction { kept: _, given: _ } => text.word("auction"),
        Mismatch::Seat { kept: _, given: _ } => text.word("seat"),
        Mismatch::Lanes { kept: _, given: _ } => text.word("lanes"),
        Mismatch::Digest {
            lane,
            second,
            kept,
            made,
        } => text
            .word("lane ")
            .number(u64::from(*lane))
            .word(" half ")
            .word(half_number(*second))
            .word(" kept ")
            .hex(kept)
            .word(" made ")
            .hex(made),
    }
}

/// The number of a half.
fn half_number(second: bool) -> &'static str
    ensures { result.now ≡ half_number second }
{
    if second { "1" } else { "0" }
}
