//! What is said of a seed that gives no tape. Nothing here takes memory.

ghost use Rattle.std.specs.Prelude.{◌≡◌};
ghost use Rattle.vk_effect.specs.Dry.{bidder_dry_line, house_dry_line};

use crate::numbers::numbers_line;
use vk_text::ShortText;

/// The line of a bidder's seed that is dry: the first lane, from 1, for which no residue can be
/// drawn.
pub fn bidder_dry_line(lane: u32) -> ShortText
    ensures { result ≡ bidder_dry_line lane }
{
    ShortText::new()
        .word("seal dry seed lane ")
        .number(u64::from(lane))
        .word("\n")
}

/// The line of the house's seed that is dry: the first such lane, from 1, and the first such wire
/// of it, from 0.
pub fn house_dry_line(lane: u32, wire: u32) -> ShortText
    ensures { result ≡ house_dry_line lane wire }
{
    numbers_line("house dry seed lane ", lane, " wire ", wire)
}
