// Four wires at a time, and the digests of what each opens for either bit.
ghost use Rattle.std.specs.Prelude.{◌≡◌, ◌%◌, IfOk};

use crate::parts::part_at;
use crate::wires::wire_of;
use vk_cases::{Text, Tried};
use vk_commit::Place;
use vk_wire::{Opened, Shown, hash_four, show};

/// For either bit, the first and the last digest of what each of the four wires opens.
pub fn put_four(text: &mut Text, case: &[u8]) -> Tried<()> {
    put_opened(text, b"opened0 ", &opened(case, false)?);
    put_opened(text, b"opened1 ", &opened(case, true)?);
    Ok(())
}

/// What the four wires open for the bit, all four hashed at once.
fn opened(case: &[u8], bit: bool) -> Tried<[Opened; 4]> {
    let (first_place, first) = shown_of(case, 0, bit)?;
    let (second_place, second) = shown_of(case, 1, bit)?;
    let (third_place, third) = shown_of(case, 2, bit)?;
    let (fourth_place, fourth) = shown_of(case, 3, bit)?;
    let places = [first_place, second_place, third_place, fourth_place];
    Ok(hash_four(&places, &[first, second, third, fourth], bit))
}

/// The place of the wire of that number, from 0, and what is shown of it for the bit.
fn shown_of(case: &[u8], number: usize, bit: bool) -> Tried<(Place, Shown)>
    ensures { IfOk result (λ found. found.0.slot % 2 ≡ 0) }
{
    let wire = wire_of(part_at(case, b'|', number)?)?;
    Ok((wire.place, show(wire.kind, wire.value, &wire.tape, bit)))
}

/// A line for each of the four.
fn put_opened(text: &mut Text, word: &[u8], four: &[Opened; 4]) {
    for opened in four {
        text.put_hex(word, &opened.first);
        text.put_hex(b" ", &opened.last);
        text.put(b"\n");
    }
}
