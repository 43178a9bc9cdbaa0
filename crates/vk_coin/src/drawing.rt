// How a share is drawn from words.
ghost use Rattle.std.specs.Prelude.{◌≡◌, ◌+◌, ◌≤◌, [], length, vec_capacity, IfErr, IfOk};
ghost use Rattle.vk_dice.specs.Words.{later};
ghost use Rattle.vk_coin.specs.Shares.{IsShare, drawn_bits, drawn_share};

use crate::share::{Share, share_from};
use std::alloc::Global;
use vk_dice::{Words, draw_bit, draw_key};
use vk_residue::NoMemory;
use vk_seq::Seq;

/// Draws an auditor's share for an auction of so many lanes: a key, and then a bit for each lane.
/// Errs for want of memory alone, and all memory is taken before the first word.
pub fn draw_share<W: Words>(
    alloc: Global,
    auction: &[u8; 16],
    auditor: u16,
    lanes: u32,
    words: &mut W,
) -> Result<Share, NoMemory>
    requires some_auditor { 1 ≤ auditor }
    requires few_auditors { auditor ≤ 16 }
    requires some_lane { 1 ≤ lanes }
    requires few_lanes { lanes ≤ 64 }
    ensures drawn { IfOk result
        (λ share. share ≡ drawn_share auction.now auditor lanes (W.ahead words.old)) }
    ensures after { IfOk result (λ _. W.ahead words.new ≡ later (4 + lanes) (W.ahead words.old)) }
    ensures memory { IfErr result (λ _. W.ahead words.new ≡ W.ahead words.old) }
    ensures right { IfOk result IsShare }
{
    let room = Vec::with_capacity(alloc, lanes as usize)?;
    let key = draw_key(words);
    let bits = draw_bits(room, lanes, words);
    Ok(share_from(auction, auditor, bits, &key))
}

/// Draws a bit for each lane into that room.
fn draw_bits<W: Words>(mut bits: Vec<bool>, lanes: u32, words: &mut W) -> Seq<bool>
    requires no_bits { bits.items ≡ [] }
    requires room { lanes ≤ vec_capacity bits }
    ensures drawn { result ≡ drawn_bits lanes (W.ahead words.old) }
    ensures count { length result ≡ lanes }
    ensures after { W.ahead words.new ≡ later lanes (W.ahead words.old) }
{
    for lane in 0..lanes {
        bits.push(draw_bit(words)).unwrap();
    }
    Seq::from_vec(bits)
}
