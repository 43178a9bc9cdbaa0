ghost use Rattle.std.specs.Prelude.{◌≡◌, ◌∷◌, ◌++◌, [], codes, decimal, IfOk, OnOk};
ghost use Rattle.vk_lines.specs.Common.{hex_text, line, spaced};
ghost use Rattle.vk_reply.specs.Texts.{bit_character, bits_text, shown_text, challenge_text, reply_head_text, reply_lane_text};

use crate::challenge::Challenge;
use crate::tokens::{bit_character, push_bits};
use std::alloc::Global;
use vk_commit::Opening;
use vk_lines::{end_line, push_decimal, push_hex, push_line, push_number_line, push_space};
use vk_residue::NoMemory;
use vk_wire::Shown;

/// The text of a challenge's file.
#[tactic(auto, unfolding(crate::specs::Texts::challenge_text))]
pub fn challenge_text(alloc: Global, challenge: &Challenge) -> Result<Vec<u8>, NoMemory>
    ensures { IfOk result (λ text. text.items ≡ challenge_text challenge.now) }
{
    let mut text = Vec::new(alloc);
    push_line(&mut text, b"vickrey-challenge 1")?;
    push_bits_line(&mut text, challenge.bits.as_slice())?;
    push_line(&mut text, b"end")?;
    Ok(text)
}

/// Appends the line of a challenge's bits.
fn push_bits_line(out: &mut Vec<u8>, bits: &[bool]) -> Result<(), NoMemory>
    ensures { OnOk result (out.new.items
        ≡ out.old.items ++ line (spaced (codes "bits" ∷ bits_text bits.now ∷ []))) }
{
    out.extend_from_slice(b"bits ")?;
    push_bits(out, bits)?;
    end_line(out)?;
    Ok(())
}

/// The lines of a reply before its first lane: how many lanes it has.
#[tactic(auto, unfolding(crate::specs::Texts::reply_head_text))]
pub fn reply_head_text(alloc: Global, lanes: u32) -> Result<Vec<u8>, NoMemory>
    ensures { IfOk result (λ text. text.items ≡ reply_head_text lanes) }
{
    let mut text = Vec::new(alloc);
    push_line(&mut text, b"vickrey-reply 1")?;
    push_number_line(&mut text, b"lanes", u64::from(lanes))?;
    Ok(text)
}

/// The lines of one lane of a reply: its number, counted from 1, and what is shown of each wire.
#[tactic(auto, unfolding(crate::specs::Texts::reply_lane_text))]
pub fn reply_lane_text(alloc: Global, lane: u32, shown: &[Shown]) -> Result<Vec<u8>, NoMemory>
    ensures { IfOk result (λ text. text.items ≡ reply_lane_text lane shown.now) }
{
    let mut text = Vec::new(alloc);
    push_number_line(&mut text, b"lane", u64::from(lane))?;
    for one in shown {
        push_shown(&mut text, one)?;
    }
    Ok(text)
}

/// Appends the line of one wire.
fn push_shown(out: &mut Vec<u8>, shown: &Shown) -> Result<(), NoMemory>
    ensures { OnOk result (out.new.items ≡ out.old.items ++ line (shown_text shown.now)) }
{
    match shown {
        Shown::Half(opening) => push_half(out, opening),
        Shown::Whole(first, second) => push_whole(out, first, second),
        Shown::Spent { second, opening } => push_spent(out, *second, opening),
    }
}

/// Appends the line of the half of a split wire.
fn push_half(out: &mut Vec<u8>, opening: &Opening) -> Result<(), NoMemory>
    ensures { OnOk result (out.new.items ≡ out.old.items
        ++ line (spaced (codes "h" ∷ hex_text opening.now.key ∷ decimal opening.now.value ∷ []))) }
{
    out.extend_from_slice(b"h ")?;
    push_opening(out, opening)?;
    end_line(out)?;
    Ok(())
}

/// Appends the line of both entries of a pair.
fn push_whole(out: &mut Vec<u8>, first: &Opening, second: &Opening) -> Result<(), NoMemory>
    ensures { OnOk result (out.new.items ≡ out.old.items
        ++ line (spaced (codes "a" ∷ hex_text first.now.key ∷ decimal first.now.value ∷ hex_text second.now.key ∷ decimal second.now.value ∷ []))) }
{
    out.extend_from_slice(b"a ")?;
    push_opening(out, first)?;
    push_space(out)?;
    push_opening(out, second)?;
    end_line(out)?;
    Ok(())
}

/// Appends the line of one entry of a pair.
fn push_spent(out: &mut Vec<u8>, second: bool, opening: &Opening) -> Result<(), NoMemory>
    ensures { OnOk result (out.new.items ≡ out.old.items
        ++ line (spaced (codes "s" ∷ (bit_character second ∷ []) ∷ hex_text opening.now.key ∷ decimal opening.now.value ∷ []))) }
{
    out.extend_from_slice(b"s ")?;
    out.push(bit_character(second))?;
    push_space(out)?;
    push_opening(out, opening)?;
    end_line(out)?;
    Ok(())
}

/// Appends a key and a value.
fn push_opening(out: &mut Vec<u8>, opening: &Opening) -> Result<(), NoMemory>
    ensures { OnOk result (out.new.items ≡ out.old.items
        ++ spaced (hex_text opening.now.key ∷ decimal opening.now.value ∷ [])) }
{
    push_hex(out, &opening.key)?;
    push_space(out)?;
    push_decimal(out, opening.value.get())?;
    Ok(())
}
