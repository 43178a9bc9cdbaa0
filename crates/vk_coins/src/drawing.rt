//! `coin-part`: an auditor's share.

ghost use Rattle.std.specs.Prelude.{◌≡◌, ◌≤◌, length, IfOk};
ghost use Rattle.vk_coin.specs.Shares.{IsShare};
ghost use Rattle.vk_words.specs.Coins.{IsPartOrder, part_seen};
ghost use Rattle.vk_coins.specs.Drawing.{committed_said, part_deed, share_deed, share_of};

use std::alloc::Global;
use vk_coin::{Share, draw_share, share_commit, share_text};
use vk_dice::ChaChaWords;
use vk_effect::{Deed, Said};
use vk_residue::NoMemory;
use vk_text::ShortText;
use vk_words::PartOrder;

/// The number of the stream of words that auditor 0 would have. Behind those of the lanes and of
/// the seats.
const FIRST_STREAM: u64 = 131072;

/// Draws the auditor's share. Errs for want of memory alone.
pub fn part(alloc: Global, order: &PartOrder<'_>) -> Result<Deed, NoMemory>
    requires { IsPartOrder (part_seen order.now) }
    ensures { IfOk result (λ deed. deed ≡ part_deed (part_seen order.now)) }
{
    let share = draw_part(alloc, order)?;
    let deed = keep_share(alloc, order.share, &share)?;
    Ok(deed)
}

/// The share that the seed's words give in the auditor's stream.
#[tactic(auto, unfolding(crate::specs::Drawing::share_of))]
fn draw_part(alloc: Global, order: &PartOrder<'_>) -> Result<Share, NoMemory>
    requires { IsPartOrder (part_seen order.now) }
    ensures share { IfOk result (λ share. share ≡ share_of (part_seen order.now)) }
    ensures right { IfOk result IsShare }
{
    let stream = FIRST_STREAM + u64::from(order.auditor);
    let mut words = ChaChaWords::of(&order.seed, &order.auction, stream);
    let share = draw_share(
        alloc,
        &order.auction,
        order.auditor,
        order.lanes,
        &mut words,
    )?;
    Ok(share)
}

/// A share is written to the named file, and its commitment is said.
fn keep_share(alloc: Global, name: &str, share: &Share) -> Result<Deed, NoMemory>
    requires { length share.now.bits ≤ 64 }
    ensures { IfOk result (λ deed. deed ≡ share_deed name.now share.now) }
{
    let text = share_text(alloc, share)?;
    let deed = Deed::says(alloc, say_commitment(share)).with_file(alloc, name, text)?;
    Ok(deed)
}

/// What is said of a share. Takes no memory.
fn say_commitment(share: &Share) -> Said
    requires { length share.now.bits ≤ 64 }
    ensures { result ≡ committed_said share.now }
{
    let line = ShortText::new()
        .word("part ")
        .number(u64::from(share.auditor))
        .word(" commit ")
        .hex(&share_commit(share))
        .word("\n");
    Said::of_short(0, line)
}
