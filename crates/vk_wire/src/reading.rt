// What a shown wire reads.
ghost use Rattle.std.specs.Prelude.{◌≡◌, ◌↔◌, ◌<◌, ◌%◌, Ok, Err, ℕ, false};
ghost use Rattle.vk_plan.specs.Plans.{HasWeight};
ghost use Rattle.vk_residue.specs.Residue.{IsResidue};
ghost use Rattle.vk_commit.specs.declared.place.Place.{Place};
ghost use Rattle.vk_wire.specs.Opened.{entry_made, opened_by};
ghost use Rattle.vk_wire.specs.Reads.{Reads, HasFault, read_of, entry_read, whole_read, set_read};
ghost use Rattle.vk_wire.specs.declared.wire.Shown.TheVariants.{Whole};
ghost use Rattle.vk_wire.specs.declared.wire.WireFault.{WireFault};

use crate::hashing::hash_opened;
use crate::wire::{Opened, Shown, WireCom, WireFault};
use vk_commit::{Opening, Place, opens_made};
use vk_plan::WireKind;
use vk_residue::Residue;

/// The half that the shown wire gives for the bit. The second commitment stands at the slot after
/// `place`. The faults are tested in the order form, first digest, second digest, set.
#[tactic(auto, using(crate::proofs::Readings::half_is_computed, crate::proofs::Readings::fault_is_computed))]
pub fn read(
    kind: WireKind,
    place: &Place,
    digests: &WireCom,
    shown: &Shown,
    bit: bool,
) -> Result<Residue, WireFault>
    requires weight { HasWeight kind }
    requires slot { place.now.slot % 2 ≡ 0 }
    ensures half { (h : ℕ) → (result ≡ Ok h) ↔ Reads kind place.now digests.now shown.now bit h }
    ensures fault { (f : WireFault)
        → (result ≡ Err f) ↔ HasFault kind place.now digests.now shown.now bit f }
    ensures computed { result ≡ read_of kind place.now digests.now shown.now bit }
{
    let opened = hash_opened(place, shown, bit);
    let half = read_opened(kind, digests, shown, bit, &opened);
    half
}

/// The same, with the digests of what the wire opens made before.
#[tactic(auto, unfolding(crate::specs::Opened::opened_by))]
pub fn read_opened(
    kind: WireKind,
    digests: &WireCom,
    shown: &Shown,
    bit: bool,
    opened: &Opened,
) -> Result<Residue, WireFault>
    requires { HasWeight kind }
    ensures { (place : Place) → opened.now ≡ opened_by place shown.now bit
        → result ≡ read_of kind place digests.now shown.now bit }
{
    match (kind, bit, shown) {
        (WireKind::Split, _, Shown::Half(opening)) => {
            read_entry(digests, bit, opening, &opened.first)
        }
        (WireKind::Pair(i), false, Shown::Whole(first, second)) => {
            read_whole(i, digests, first, second, opened)
        }
        (WireKind::Pair(_), true, Shown::Spent { second, opening }) => {
            read_entry(digests, *second, opening, &opened.first)
        }
        _ => Err(WireFault::Form),
    }
}

/// The value of the opening, if the digest that it makes is the one that `second` names.
fn read_entry(
    digests: &WireCom,
    second: bool,
    opening: &Opening,
    made: &[u8; 32],
) -> Result<Residue, WireFault>
    ensures computed { (place : Place) → made.now ≡ entry_made place (second, opening.now)
        → result ≡ entry_read place digests.now second opening.now }
    ensures residue { IsResidue opening.now.value }
{
    let digest = if second {
        digests.second
    } else {
        digests.first
    };
    if opens_made(&digest, opening, made) {
        Ok(opening.value)
    } else {
        Err(WireFault::Digest { second })
    }
}

/// The half that a pair of weight 2^i reads when it is opened whole.
#[tactic(auto, unfolding(crate::specs::Opened::opened_by))]
fn read_whole(
    i: u32,
    digests: &WireCom,
    first: &Opening,
    second: &Opening,
    opened: &Opened,
) -> Result<Residue, WireFault>
    requires weight { i < 61 }
    ensures { (place : Place) → opened.now ≡ opened_by place (Whole first.now second.now) false
        → result ≡ whole_read i place digests.now first.now second.now }
{
    read_entry(digests, false, first, &opened.first)?;
    read_entry(digests, true, second, &opened.last)?;
    read_set(i, first.value, second.value)
}

/// The half that two entries of a pair of weight 2^i read, if one is the other plus the weight.
fn read_set(i: u32, first: Residue, second: Residue) -> Result<Residue, WireFault>
    requires weight { i < 61 }
    requires first { IsResidue first }
    requires second { IsResidue second }
    ensures { result ≡ set_read i first second }
{
    let weight = Residue::pow2(i);
    if second.sub(first) == weight {
        Ok(first.neg())
    } else if first.sub(second) == weight {
        Ok(second.neg())
    } else {
        Err(WireFault::NotASet)
    }
}
