// The values of the wires of a lane.
ghost use Rattle.std.specs.Prelude.{◌≡◌, ◌<◌, IfOk, length, slice_index_or};
ghost use Rattle.vk_plan.specs.Plans.{IsPlan};
ghost use Rattle.vk_plan.specs.declared.wire.WireKind.TheVariants.{Split};
ghost use Rattle.vk_row.specs.declared.case.LaneCase.{LaneCase};
ghost use Rattle.vk_row.specs.Lanes.{nothing_shown};
ghost use Rattle.vk_extractor.specs.Sums.{AreSums};
ghost use Rattle.vk_extractor.specs.Values.{wire_value};

use std::alloc::Global;
use vk_plan::{Plan, WireKind};
use vk_residue::{NoMemory, Residue};
use vk_wire::Shown;

/// The sum of the two halves of each wire, in whatever lane of the plan they were accepted.
pub(crate) fn values_of(
    alloc: Global,
    plan: &Plan,
    zero: &[Shown],
    one: &[Shown],
) -> Result<Vec<Residue>, NoMemory>
    requires zero { length zero.now ≡ length plan.now.kinds }
    requires one { length one.now ≡ length plan.now.kinds }
    ensures plan { IsPlan plan.now }
    ensures sums { IfOk result
        (λ values. (case : LaneCase) → AreSums plan.now case zero.now one.now values.items) }
{
    let wires = plan.wires();
    let mut values = Vec::with_capacity(alloc, wires as usize)?;
    for wire in 0..wires {
        let value = value_of_wire(plan, zero, one, wire);
        values.push(value)?;
    }
    Ok(values)
}

/// The sum of the two halves that a wire shows. Of a pair that is the spent entry less the entry
/// from which the other rises by the weight. What no accepted lane shows counts as 0.
fn value_of_wire(plan: &Plan, zero: &[Shown], one: &[Shown], wire: u32) -> Residue
    requires wire { wire < length plan.now.kinds }
    requires zero { length zero.now ≡ length plan.now.kinds }
    requires one { length one.now ≡ length plan.now.kinds }
    ensures { result ≡ wire_value (slice_index_or plan.now.kinds wire Split)
        (slice_index_or zero.now wire nothing_shown) (slice_index_or one.now wire nothing_shown) }
{
    let at = wire as usize;
    match (plan.kind(wire), &zero[at], &one[at]) {
        (WireKind::Split, Shown::Half(first), Shown::Half(second)) => first.value.add(second.value),
        (WireKind::Pair(i), Shown::Whole(first, second), Shown::Spent { opening, .. }) => {
            let rises = second.value.sub(first.value) == Residue::pow2(i);
            let lower = if rises { first.value } else { second.value };
            opening.value.sub(lower)
        }
        _ => Residue::ZERO,
    }
}
