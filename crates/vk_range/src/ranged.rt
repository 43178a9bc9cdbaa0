ghost use Rattle.std.specs.Prelude.{◌≡◌, IfOk};
ghost use Rattle.vk_range.specs.Ranged.{IsRanged, MayBeFilled, ranged_plan, ranged_values};

use crate::copies::{add_copies, with_copies};
use crate::ranges::Ranges;
use std::alloc::Global;
use vk_plan::{Plan, Relation};
use vk_residue::{NoMemory, Residue};

/// The plan of that many inputs, a copy of each, and the ranges over them.
pub fn ranged_plan(alloc: Global, inputs: u32, ranges: &Ranges) -> Result<Plan, NoMemory>
    requires { IsRanged inputs ranges.now }
    ensures { IfOk result (λ plan. plan ≡ ranged_plan inputs ranges.now) }
{
    let mut plan = Plan::new(alloc, inputs)?;
    add_copies(alloc, inputs, &mut plan)?;
    ranges.add(alloc, &mut plan)?;
    Ok(plan)
}

/// The values of its wires.
pub fn ranged_values(
    alloc: Global,
    inputs: &[Residue],
    ranges: &Ranges,
) -> Result<Vec<Residue>, NoMemory>
    requires { MayBeFilled inputs.now ranges.now }
    ensures { IfOk result (λ values. values.items ≡ ranged_values inputs.now ranges.now) }
{
    let mut values = with_copies(alloc, inputs)?;
    ranges.fill(&mut values)?;
    Ok(values)
}
