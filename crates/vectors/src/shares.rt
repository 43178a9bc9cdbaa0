// Shares of challenges that auditors fix together: the commitment to each, and the share that is
// drawn from a seed.
ghost use Rattle.std.specs.Prelude.{◌≤◌, IfOk, length};

use std::alloc::Global;
use vk_cases::{Text, Tried, Unreplayed, id_at, key_at, number_at, word_at};
use vk_coin::{Share, draw_share, share_commit};
use vk_dice::ChaChaWords;
use vk_reply::bits_of;
use vk_seq::Seq;

/// The number of the first auditor's stream is one more.
const STREAMS: u64 = 131072;

/// The case, its key and its bits where the share is drawn, and the commitment to the share.
pub fn put_share(alloc: Global, text: &mut Text, case: &[u8]) -> Tried<()> {
    text.put(case);
    if word_at(case, 0)? == b"draw".as_slice() {
        let share = drawn_share(alloc, case)?;
        text.put_hex(b" | ", &share.key);
        text.put_bits(b" ", share.bits.as_slice());
        put_commit(text, &share);
    } else {
        let share = given_share(alloc, case)?;
        put_commit(text, &share);
    }
    Ok(())
}

/// The commitment to a share, at the end of a line.
fn put_commit(text: &mut Text, share: &Share)
    requires { length share.now.bits ≤ 64 }
{
    text.put_hex(b" | ", &share_commit(share));
    text.put(b"\n");
}

/// The share of `share AUCTION AUDITOR KEY BITS`.
fn given_share(alloc: Global, case: &[u8]) -> Tried<Share>
    ensures { IfOk result (λ share. length share.bits ≤ 64) }
{
    let auction = id_at(case, 1)?;
    let auditor = number_at(case, 2, 16)?;
    let key = key_at(case, 3)?;
    let bits = bits_in(alloc, word_at(case, 4)?)?;
    Ok(Share {
        auction,
        auditor: auditor as u16,
        bits,
        key,
    })
}

/// The share that `draw SEED AUCTION AUDITOR LANES` gives.
fn drawn_share(alloc: Global, case: &[u8]) -> Tried<Share>
    ensures { IfOk result (λ share. length share.bits ≤ 64) }
{
    let seed = key_at(case, 1)?;
    let auction = id_at(case, 2)?;
    let auditor = number_at(case, 3, 16)?;
    let lanes = number_at(case, 4, 64)?;
    if auditor == 0 || lanes == 0 {
        return Err(Unreplayed::NoCase);
    }
    let mut words = ChaChaWords::of(&seed, &auction, STREAMS + auditor);
    let share = draw_share(alloc, &auction, auditor as u16, lanes as u32, &mut words)?;
    Ok(share)
}

/// The bits of a word, at most 64.
pub fn bits_in(alloc: Global, word: &[u8]) -> Tried<Seq<bool>>
    ensures { IfOk result (λ bits. length bits ≤ 64) }
{
    match bits_of(alloc, word)? {
        Some(bits) => Ok(bits),
        None => Err(Unreplayed::NoCase),
    }
}
