ghost use Rattle.std.specs.Prelude.{◌≡◌, ◌++◌, IfOk, OnOk};
ghost use Rattle.std.specs.List.{flat_map};
ghost use Rattle.vk_lines.specs.Forms.{line};
ghost use Rattle.vk_board.specs.Texts.{posted_text, reserve_text, winner_text, head_text, seal_lines_text, lane_text};

use crate::board::{Head, LaneLines, SealLines};
use std::alloc::Global;
use vk_lines::{push_digests_lines, push_hex_line, push_line, push_number_line};
use vk_residue::{NoMemory, Residue};

/// The text of a board's head. Its numbers are within the limits of their lines.
#[tactic(auto, unfolding(crate::specs::Texts::head_text))]
pub fn head_text(alloc: Global, head: &Head) -> Result<Vec<u8>, NoMemory>
    ensures { IfOk result (λ text. text.items ≡ head_text head.now) }
{
    let mut text = Vec::new(alloc);
    push_number_line(&mut text, b"vickrey-board", u64::from(head.version))?;
    push_hex_line(&mut text, b"auction", &head.auction)?;
    push_number_line(&mut text, b"width", u64::from(head.width))?;
    push_number_line(&mut text, b"lanes", u64::from(head.lanes))?;
    push_number_line(&mut text, b"seals", u64::from(head.seals))?;
    push_reserve(&mut text, head.version, head.reserve)?;
    push_winner(&mut text, head.winner)?;
    push_number_line(&mut text, b"price", head.price)?;
    Ok(text)
}

/// Appends the line of the reserve, which version 2 has.
fn push_reserve(out: &mut Vec<u8>, version: u32, reserve: u64) -> Result<(), NoMemory>
    ensures { OnOk result (out.new.items ≡ out.old.items ++ reserve_text version reserve) }
{
    if version == 2 {
        push_number_line(out, b"reserve", reserve)?;
    }
    Ok(())
}

/// Appends the line that tells the winner's seat, or that nothing is sold.
fn push_winner(out: &mut Vec<u8>, winner: Option<u16>) -> Result<(), NoMemory>
    ensures { OnOk result (out.new.items ≡ out.old.items ++ line (winner_text winner)) }
{
    match winner {
        Some(seat) => push_number_line(out, b"winner", u64::from(seat)),
        None => push_line(out, b"unsold"),
    }
}

/// The text of a seal on a board.
#[tactic(auto, unfolding(crate::specs::Texts::seal_lines_text))]
pub fn seal_lines_text(alloc: Global, seal: &SealLines) -> Result<Vec<u8>, NoMemory>
    ensures { IfOk result (λ text. text.items ≡ seal_lines_text seal.now) }
{
    let mut text = Vec::new(alloc);
    push_number_line(&mut text, b"seal", u64::from(seal.seat))?;
    push_digests_lines(&mut text, b"x", seal.coms.as_slice())?;
    Ok(text)
}

/// The text of the lane of that number, from 1.
#[tactic(auto, unfolding(crate::specs::Texts::lane_text))]
pub fn lane_text(alloc: Global, lane: u32, lines: &LaneLines) -> Result<Vec<u8>, NoMemory>
    ensures { IfOk result (λ text. text.items ≡ lane_text lane lines.now) }
{
    let mut text = Vec::new(alloc);
    push_number_line(&mut text, b"lane", u64::from(lane))?;
    push_digests_lines(&mut text, b"w", lines.coms.as_slice())?;
    push_posted(&mut text, lines.posted.as_slice())?;
    Ok(text)
}

/// Appends the line of each row's number.
fn push_posted(out: &mut Vec<u8>, posted: &[Residue]) -> Result<(), NoMemory>
    ensures { OnOk result (out.new.items
        ≡ out.old.items ++ flat_map (λ number. line (posted_text number)) posted.now) }
{
    for number in posted {
        push_number_line(out, b"d", number.get())?;
    }
    Ok(())
}
