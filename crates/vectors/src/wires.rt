// Wires: the commitments that are made, what is shown for each bit, and the half that this reads.
ghost use Rattle.std.specs.Prelude.{◌≡◌, ◌≤◌, ◌%◌, IfOk};
ghost use Rattle.vk_plan.specs.Plans.{HasWeight, MayHave};
ghost use Rattle.vk_wire.specs.Values.{CanBeMade};

use vk_cases::{Text, Tried, Unreplayed, id_at, key_at, number_at, residue_at, word_at};
use vk_commit::{Opening, Place};
use vk_plan::WireKind;
use vk_residue::Residue;
use vk_wire::{HonestWire, Shown, WireCom, WireTape, make, read, show};

/// The case, its commitments, and for each bit what is shown and read.
pub fn put_wire(text: &mut Text, case: &[u8]) -> Tried<()> {
    let wire = wire_of(case)?;
    let at = place_word(wire.kind);
    put_words(text, case, at, at + 5, at + 10)?;
    let coms = make(wire.kind, &wire.place, wire.value, &wire.tape);
    text.put_hex(b"coms ", &coms.first);
    text.put_hex(b" ", &coms.second);
    text.put(b"\n");
    put_bit(text, &wire, &coms, false)?;
    put_bit(text, &wire, &coms, true)
}

/// What is shown for the bit, and the half that this reads.
fn put_bit(text: &mut Text, wire: &HonestWire, coms: &WireCom, bit: bool) -> Tried<()>
    requires { CanBeMade wire.now }
{
    let shown = show(wire.kind, wire.value, &wire.tape, bit);
    text.put(if bit { b"show1" } else { b"show0" });
    put_shown(text, &shown);
    match read(wire.kind, &wire.place, coms, &shown, bit) {
        Ok(half) => text.put_number(if bit { b"\nhalf1 " } else { b"\nhalf0 " }, half.get()),
        Err(_fault) => return Err(Unreplayed::NoCase),
    }
    text.put(b"\n");
    Ok(())
}

/// The wire of the case.
pub fn wire_of(case: &[u8]) -> Tried<HonestWire>
    ensures { IfOk result CanBeMade }
{
    let kind = kind_of(case, 2)?;
    let at = place_word(kind);
    let value = value_at(case, at - 1, kind)?;
    let place = place_of(case, at)?;
    let tape = tape_of(case, at + 5)?;
    Ok(HonestWire {
        kind,
        place,
        value,
        tape,
    })
}

/// The kind of the wire. A pair's number stands at that place.
pub fn kind_of(case: &[u8], number: usize) -> Tried<WireKind>
    ensures { IfOk result HasWeight }
{
    if word_at(case, 1)? == b"split".as_slice() {
        return Ok(WireKind::Split);
    }
    let i = number_at(case, number, 60)?;
    Ok(WireKind::Pair(i as u32))
}

/// Where the word `place` stands in the case, behind the value.
fn place_word(kind: WireKind) -> usize
    ensures some { 1 ≤ result }
    ensures few { result ≤ 5 }
{
    match kind {
        WireKind::Split => 4,
        WireKind::Pair(_) => 5,
    }
}

/// The value at that place, which a wire of the kind may have.
pub fn value_at(case: &[u8], place: usize, kind: WireKind) -> Tried<Residue>
    requires { HasWeight kind }
    ensures { IfOk result (MayHave kind) }
{
    let value = residue_at(case, place)?;
    match kind {
        WireKind::Split => Ok(value),
        WireKind::Pair(i) => {
            if value.get() == 0 || value == Residue::pow2(i) {
                Ok(value)
            } else {
                Err(Unreplayed::NoCase)
            }
        }
    }
}

/// The place of the first commitment, behind the word at `at`.
fn place_of(case: &[u8], at: usize) -> Tried<Place>
    requires { at ≤ 5 }
    ensures { IfOk result (λ place. place.slot % 2 ≡ 0) }
{
    let auction = id_at(case, at + 1)?;
    let lane = number_at(case, at + 2, 65535)?;
    let seat = number_at(case, at + 3, 65535)?;
    let slot = number_at(case, at + 4, 4294967294)?;
    if slot % 2 != 0 {
        return Err(Unreplayed::NoCase);
    }
    Ok(Place {
        auction,
        seat: seat as u16,
        lane: lane as u16,
        slot: slot as u32,
    })
}

/// The tape of the wire, behind the word at `at`.
pub fn tape_of(case: &[u8], at: usize) -> Tried<WireTape>
    requires { at ≤ 10 }
{
    let mask = residue_at(case, at + 1)?;
    let swap = number_at(case, at + 2, 1)?;
    let first_key = key_at(case, at + 3)?;
    let second_key = key_at(case, at + 4)?;
    Ok(WireTape {
        mask,
        swap: swap == 1,
        first_key,
        second_key,
    })
}

/// The words of the case before the last of these places, as lines: others than the first begin at
/// the first and at the second place.
pub fn put_words(
    text: &mut Text,
    case: &[u8],
    first: usize,
    second: usize,
    end: usize,
) -> Tried<()> {
    for place in 0..end {
        text.put(mark_before(place, first, second));
        text.put(word_at(case, place)?);
    }
    text.put(b"\n");
    Ok(())
}

/// What stands before the word at a place.
fn mark_before(place: usize, first: usize, second: usize) -> &'static [u8] {
    if place == 0 {
        b""
    } else if place == first || place == second {
        b"\n"
    } else {
        b" "
    }
}

/// What is shown, behind a space: a half, both entries, or which entry is spent and that one.
pub fn put_shown(text: &mut Text, shown: &Shown) {
    match shown {
        Shown::Half(opening) => put_opening(text, b" h ", opening),
        Shown::Whole(first, second) => {
            put_opening(text, b" a ", first);
            put_opening(text, b" ", second);
        }
        Shown::Spent { second, opening } => {
            put_opening(text, if *second { b" s 1 " } else { b" s 0 " }, opening);
        }
    }
}

/// A mark, and behind it the key and the value of an opening.
fn put_opening(text: &mut Text, mark: &[u8], opening: &Opening) {
    text.put_hex(mark, &opening.key);
    text.put_number(b" ", opening.value.get());
}
