// The tape by which other values give the same view.
ghost use Rattle.std.specs.Prelude.{◌≡◌, ◌<◌, length, slice_index, slice_index_or, IfOk};
ghost use Rattle.vk_plan.specs.Plans.{Holds};
ghost use Rattle.vk_plan.specs.declared.wire.WireKind.TheVariants.{Split};
ghost use Rattle.vk_prover.specs.Honest.{no_tape};
ghost use Rattle.vk_prover.specs.Laws.{IsTapeOf};
ghost use Rattle.vk_wire.specs.Values.{IsTape};
ghost use Rattle.vk_views.specs.Moved.{is_turned, moved_tape, moved_wire};
ghost use Rattle.vk_views.specs.Views.{view_of};

use std::alloc::Global;
use vk_plan::{Plan, WireKind};
use vk_prover::LaneTape;
use vk_residue::{NoMemory, Residue};
use vk_seq::Seq;
use vk_wire::WireTape;

/// The tape by which the other values give the view for the bit that the values give by this one.
///
/// For bit 0 it is the tape itself. For bit 1 each mask is moved by the other value less the value,
/// the swap of a pair is turned exactly where its two values differ, and the keys stay.
///
/// Both lists of values are those of all wires, and hold for the plan.
pub fn moved(
    alloc: Global,
    plan: &Plan,
    values: &[Residue],
    others: &[Residue],
    bit: bool,
    tape: &LaneTape,
) -> Result<LaneTape, NoMemory>
    requires values { Holds plan.now values.now }
    requires others { Holds plan.now others.now }
    requires one_each { length tape.now.wires ≡ length plan.now.kinds }
    ensures moved { IfOk result
        (λ moved. moved.wires ≡ moved_tape plan.now.kinds values.now others.now bit
        tape.now.wires) }
    ensures tape { IfOk result (λ moved. IsTapeOf plan.now moved.wires) }
    ensures view { IfOk result (λ moved. view_of plan.now others.now moved.wires bit
        ≡ view_of plan.now values.now tape.now.wires bit) }
    ensures back { IfOk result
        (λ moved. moved_tape plan.now.kinds others.now values.now bit moved.wires
        ≡ tape.now.wires) }
{
    let mut wires = Seq::new(alloc);
    for wire in 0..plan.wires() {
        let at = wire as usize;
        let own = tape.wires.as_slice()[at];
        let moved = moved_wire(plan.kind(wire), values[at], others[at], bit, own);
        wires.push(moved)?;
    }
    Ok(LaneTape { wires })
}

/// The tape of one wire.
pub fn moved_wire(
    kind: WireKind,
    value: Residue,
    other: Residue,
    bit: bool,
    tape: WireTape,
) -> WireTape
    ensures moved { result ≡ moved_wire kind value other bit tape }
    ensures tape { IsTape tape }
{
    if !bit {
        return tape;
    }
    WireTape {
        mask: tape.mask.add(other.sub(value)),
        swap: tape.swap != is_turned(kind, value, other),
        ..tape
    }
}

/// Whether the entries of the wire are exchanged.
fn is_turned(kind: WireKind, value: Residue, other: Residue) -> bool
    ensures { result ≡ is_turned kind value other }
{
    matches!(kind, WireKind::Pair(_)) && value != other
}
