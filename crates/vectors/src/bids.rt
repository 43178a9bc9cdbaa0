// Lists of bids, and the outcome of each.
ghost use Rattle.std.specs.Prelude.{◌≤◌, length};

use vk_cases::{Text, Tried, Unreplayed};
use vk_vickrey::outcome;

/// The position of the winner, and the price.
pub fn put_outcome(text: &mut Text, bids: &[u64]) -> Tried<()> {
    if bids.is_empty() || 64 < bids.len() {
        return Err(Unreplayed::NoCase);
    }
    let found = outcome(bids);
    text.put_number(b" | ", u64::from(found.position));
    text.put_number(b" | ", found.price);
    text.put(b"\n");
    Ok(())
}
