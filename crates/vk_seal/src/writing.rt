ghost use Rattle.std.specs.Prelude.{◌≡◌, ◌++◌, IfOk, OnOk};
ghost use Rattle.std.specs.List.{flat_map};
ghost use Rattle.vk_lines.specs.Forms.{line};
ghost use Rattle.vk_seal.specs.Texts.{tape_text, seat_text, seal_text, secret_text};

use crate::secret::{Seal, Secret, XTape};
use std::alloc::Global;
use vk_lines::{
    end_line, push_decimal, push_digests_lines, push_hex, push_hex_line, push_line,
    push_number_line, push_space,
};
use vk_residue::NoMemory;

/// The text of a seal's file.
#[tactic(auto, unfolding(crate::specs::Texts::seal_text, crate::specs::Texts::lanes_text))]
pub fn seal_text(alloc: Global, seal: &Seal) -> Result<Vec<u8>, NoMemory>
    ensures { IfOk result (λ text. text.items ≡ seal_text seal.now) }
{
    let mut text = Vec::new(alloc);
    push_seat(&mut text, b"vickrey-seal 1", &seal.auction, seal.seat)?;
    push_number_line(&mut text, b"lanes", seal.lanes.len() as u64)?;
    push_digests_lines(&mut text, b"x", seal.lanes.as_slice())?;
    push_line(&mut text, b"end")?;
    Ok(text)
}

/// Appends the first line of a form, the id of an auction and a seat.
#[tactic(auto, unfolding(crate::specs::Texts::seat_text))]
fn push_seat(
    out: &mut Vec<u8>,
    heading: &[u8],
    auction: &[u8; 16],
    seat: u16,
) -> Result<(), NoMemory>
    ensures { OnOk result (out.new.items
        ≡ out.old.items ++ seat_text heading.now auction.now seat) }
{
    push_line(out, heading)?;
    push_hex_line(out, b"auction", auction)?;
    push_number_line(out, b"seat", u64::from(seat))?;
    Ok(())
}

/// The text of a secret's file.
#[tactic(auto, unfolding(crate::specs::Texts::secret_text, crate::specs::Texts::lanes_text))]
pub fn secret_text(alloc: Global, secret: &Secret) -> Result<Vec<u8>, NoMemory>
    ensures { IfOk result (λ text. text.items ≡ secret_text secret.now) }
{
    let mut text = Vec::new(alloc);
    push_seat(&mut text, b"vickrey-secret 1", &secret.auction, secret.seat)?;
    push_number_line(&mut text, b"bid", secret.bid)?;
    push_number_line(&mut text, b"lanes", secret.lanes.len() as u64)?;
    push_tapes(&mut text, secret.lanes.as_slice())?;
    push_line(&mut text, b"end")?;
    Ok(text)
}

/// Appends the line of each lane of a secret.
fn push_tapes(out: &mut Vec<u8>, tapes: &[XTape]) -> Result<(), NoMemory>
    ensures { OnOk result (out.new.items
        ≡ out.old.items ++ flat_map (λ tape. line (tape_text tape)) tapes.now) }
{
    for tape in tapes {
        push_tape_line(out, tape)?;
    }
    Ok(())
}

/// Appends the line of one lane of a secret.
fn push_tape_line(out: &mut Vec<u8>, tape: &XTape) -> Result<(), NoMemory>
    ensures { OnOk result (out.new.items ≡ out.old.items ++ line (tape_text tape.now)) }
{
    out.extend_from_slice(b"x ")?;
    push_decimal(out, tape.mask.get())?;
    push_space(out)?;
    push_hex(out, &tape.first_key)?;
    push_space(out)?;
    push_hex(out, &tape.second_key)?;
    end_line(out)?;
    Ok(())
}
