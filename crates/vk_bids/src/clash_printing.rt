//! The line of two openings of one commitment. It takes no memory, so it is printed wherever there
//! is a clash.

ghost use Rattle.std.specs.Prelude.{◌≡◌, ◌+◌, ◌≤◌, ◌++◌, length};
ghost use Rattle.vk_bids.specs.Texts.{clash_text, opening_text, openings_text, place_text};

use vk_commit::{Opening, Place, TwoOpenings};
use vk_text::ShortText;

/// The line of two openings of one commitment.
pub fn clash_line(two: &TwoOpenings) -> ShortText
    ensures { result ≡ clash_text two.now }
{
    openings_line(&two.place(), &two.digest(), &two.first(), &two.second())
}

/// The line of two openings of a digest at a place.
pub fn openings_line(
    place: &Place,
    digest: &[u8; 32],
    first: &Opening,
    second: &Opening,
) -> ShortText
    ensures { result ≡ openings_text place.now digest.now first.now second.now }
{
    let start = ShortText::new().word("clash ");
    let line = with_place(start, place).word(" digest ").hex(digest);
    let line = with_opening(line.word(" first "), first);
    let line = with_opening(line.word(" second "), second);
    line.word("\n")
}

/// The text, and then where a commitment stands in its auction.
#[tactic(auto, unfolding(crate::specs::Texts::place_text))]
fn with_place(text: ShortText, place: &Place) -> ShortText
    requires room { length text ≤ 100 }
    ensures text { result ≡ text ++ place_text place.now }
    ensures long { length result ≤ length text + 77 }
{
    text.word("lane ")
        .number(u64::from(place.lane))
        .word(" seat ")
        .number(u64::from(place.seat))
        .word(" slot ")
        .number(u64::from(place.slot))
}

/// The text, and then the key and the value of an opening.
#[tactic(auto, unfolding(crate::specs::Texts::opening_text))]
fn with_opening(text: ShortText, opening: &Opening) -> ShortText
    requires room { length text ≤ 300 }
    ensures text { result ≡ text ++ opening_text opening.now }
    ensures long { length result ≤ length text + 85 }
{
    text.hex(&opening.key).word(" ").number(opening.value.get())
}
