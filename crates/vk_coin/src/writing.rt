ghost use Rattle.std.specs.Prelude.{◌≡◌, IfOk};
ghost use Rattle.vk_coin.specs.Shares.{share_text};

use crate::share::Share;
use std::alloc::Global;
use vk_lines::{end_line, push_hex, push_hex_line, push_line, push_number_line, push_space};
use vk_reply::push_bits;
use vk_residue::NoMemory;

/// The text of a share's file.
#[tactic(auto, unfolding(crate::specs::Shares::share_text))]
pub fn share_text(alloc: Global, share: &Share) -> Result<Vec<u8>, NoMemory>
    ensures text { IfOk result (λ text. text.items ≡ share_text share.now) }
{
    let mut text = Vec::new(alloc);
    push_line(&mut text, b"vickrey-share 1")?;
    push_hex_line(&mut text, b"auction", &share.auction)?;
    push_number_line(&mut text, b"auditor", u64::from(share.auditor))?;
    text.extend_from_slice(b"show ")?;
    push_hex(&mut text, &share.key)?;
    push_space(&mut text)?;
    push_bits(&mut text, share.bits.as_slice())?;
    end_line(&mut text)?;
    push_line(&mut text, b"end")?;
    Ok(text)
}
