// What an honest wire commits to and shows.
ghost use Rattle.std.specs.Prelude.{◌≡◌, ◌%◌};
ghost use Rattle.vk_plan.specs.Plans.{HasWeight, MayHave};
ghost use Rattle.vk_wire.specs.Made.{first_opening, second_opening, made_com, shown_wire};
ghost use Rattle.vk_wire.specs.Values.{CanBeMade};

use crate::place::place_of_entry;
use crate::wire::{HonestWire, Shown, WireCom, WireTape};
use vk_commit::{Opening, Place, commit, commit_four};
use vk_plan::WireKind;
use vk_residue::Residue;

/// The commitments to the wire's two entries. The second stands at the slot after `place`.
///
/// A split value has its mask and the value less the mask. A pair of weight 2^i has `-mask` and
/// `2^i - mask`, exchanged where the tape swaps them.
pub fn make(kind: WireKind, place: &Place, value: Residue, tape: &WireTape) -> WireCom
    requires weight { HasWeight kind }
    requires value { MayHave kind value }
    requires slot { place.now.slot % 2 ≡ 0 }
    ensures { result ≡ made_com kind place.now value tape.now }
{
    let (first, second) = entries(kind, value, tape);
    let next = place_of_entry(place, true);
    WireCom {
        first: commit(place, &first),
        second: commit(&next, &second),
    }
}

/// The commitments to the entries of two wires, hashed side by side.
pub fn make_two(first: &HonestWire, second: &HonestWire) -> (WireCom, WireCom)
    requires first { CanBeMade first.now }
    requires second { CanBeMade second.now }
    ensures first { result.0
        ≡ made_com first.now.kind first.now.place first.now.value first.now.tape }
    ensures second { result.1
        ≡ made_com second.now.kind second.now.place second.now.value second.now.tape }
{
    let (a, b) = entries(first.kind, first.value, &first.tape);
    let (c, d) = entries(second.kind, second.value, &second.tape);
    let places = [
        first.place,
        place_of_entry(&first.place, true),
        second.place,
        place_of_entry(&second.place, true),
    ];
    let [a, b, c, d] = commit_four(&places, &[a, b, c, d]);
    (
        WireCom {
            first: a,
            second: b,
        },
        WireCom {
            first: c,
            second: d,
        },
    )
}

/// What is shown of the wire for the bit: of a split value the half that the bit names, of a pair
/// both entries for bit 0, and for bit 1 the entry that is the value less the mask.
pub fn show(kind: WireKind, value: Residue, tape: &WireTape, bit: bool) -> Shown
    requires weight { HasWeight kind }
    requires value { MayHave kind value }
    ensures { result ≡ shown_wire kind value tape.now bit }
{
    let (first, second) = entries(kind, value, tape);
    match (kind, bit) {
        (WireKind::Split, false) => Shown::Half(first),
        (WireKind::Split, true) => Shown::Half(second),
        (WireKind::Pair(_), false) => Shown::Whole(first, second),
        (WireKind::Pair(_), true) => {
            if second.value == value.sub(tape.mask) {
                Shown::Spent {
                    second: true,
                    opening: second,
                }
            } else {
                Shown::Spent {
                    second: false,
                    opening: first,
                }
            }
        }
    }
}

/// The openings of the first and the second entry.
fn entries(kind: WireKind, value: Residue, tape: &WireTape) -> (Opening, Opening)
    requires { HasWeight kind }
    ensures first { result.0 ≡ first_opening kind value tape.now }
    ensures second { result.1 ≡ second_opening kind value tape.now }
{
    let (first, second) = match kind {
        WireKind::Split => (tape.mask, value.sub(tape.mask)),
        WireKind::Pair(i) => {
            let without = tape.mask.neg();
            let with = Residue::pow2(i).sub(tape.mask);
            if tape.swap {
                (with, without)
            } else {
                (without, with)
            }
        }
    };
    (
        Opening {
            key: tape.first_key,
            value: first,
        },
        Opening {
            key: tape.second_key,
            value: second,
        },
    )
}
