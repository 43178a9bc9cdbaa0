// Single wires: the tape moved from one value to another, and what both show.
ghost use Rattle.vk_plan.specs.Plans.{HasWeight, MayHave};

use crate::wires::{kind_of, put_shown, put_words, tape_of, value_at};
use vk_cases::{Text, Tried};
use vk_plan::WireKind;
use vk_residue::Residue;
use vk_views::moved_wire;
use vk_wire::{WireTape, show};

/// A wire with its value, the value that it might have as well, and its tape.
#[derive(Clone, Copy)]
struct Wire {
    kind: WireKind,
    value: Residue,
    other: Residue,
    tape: WireTape,
}

/// The case, the tape moved for either bit, and what the wire shows for either bit.
pub fn put_view(text: &mut Text, case: &[u8]) -> Tried<()> {
    put_words(text, case, 6, 6, 11)?;
    let kind = kind_of(case, 1)?;
    let value = value_at(case, 3, kind)?;
    let other = value_at(case, 5, kind)?;
    let tape = tape_of(case, 6)?;
    let wire = Wire {
        kind,
        value,
        other,
        tape,
    };
    put_move(text, &wire, false);
    put_move(text, &wire, true);
    put_bit(text, &wire, false);
    put_bit(text, &wire, true);
    Ok(())
}

/// The tape moved for the bit.
fn put_move(text: &mut Text, wire: &Wire, bit: bool) {
    text.put(if bit { b"moved1" } else { b"moved0" });
    let moved = moved_wire(wire.kind, wire.value, wire.other, bit, wire.tape);
    put_moved(text, &moved);
}

/// What the wire shows for the bit, and a line where the other value shows otherwise or the tape
/// doesn't move back.
fn put_bit(text: &mut Text, wire: &Wire, bit: bool)
    requires weight { HasWeight wire.now.kind }
    requires value { MayHave wire.now.kind wire.now.value }
    requires other { MayHave wire.now.kind wire.now.other }
{
    let shown = show(wire.kind, wire.value, &wire.tape, bit);
    text.put(if bit { b"shown1" } else { b"shown0" });
    put_shown(text, &shown);
    text.put(b"\n");
    let moved = moved_wire(wire.kind, wire.value, wire.other, bit, wire.tape);
    if show(wire.kind, wire.other, &moved, bit) != shown {
        text.put_line(b"the other value shows otherwise");
    }
    if moved_wire(wire.kind, wire.other, wire.value, bit, moved) != wire.tape {
        text.put_line(b"the tape does not move back");
    }
}

/// The mask of a tape, and whether it swaps, behind a space each, at the end of a line.
pub fn put_moved(text: &mut Text, tape: &WireTape) {
    text.put_number(b" ", tape.mask.get());
    text.put_number(b" ", u64::from(tape.swap));
    text.put(b"\n");
}
