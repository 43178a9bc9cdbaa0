ghost use Rattle.std.specs.Prelude.{◌≡◌, ◌≤◌, ◌++◌, IfOk, OnOk, OnErr};
ghost use Rattle.vk_plan.specs.Plans.{plan_of_inputs};
ghost use Rattle.vk_range.specs.Copies.{copies};

use crate::equal::Copied;
use std::alloc::Global;
use vk_plan::{Plan, Relation};
use vk_residue::{NoMemory, Residue};

/// Appends a copy of each input to a plan of nothing but 1 to 65536 inputs. After a refusal the
/// plan is as before.
pub fn add_copies(alloc: Global, inputs: u32, plan: &mut Plan) -> Result<(), NoMemory>
    requires most { inputs ≤ 65536 }
    requires plan { plan.old ≡ plan_of_inputs inputs }
    ensures added { OnOk result (plan.new ≡ copies inputs inputs) }
    ensures as_before { OnErr result (plan.new ≡ plan.old) }
{
    for wire in 0..inputs {
        let copied = Copied { wire };
        if let Err(refused) = copied.add(alloc, plan) {
            plan.cut(inputs, 0);
            return Err(refused);
        }
    }
    Ok(())
}

/// The inputs, and behind them their copies.
pub fn with_copies(alloc: Global, inputs: &[Residue]) -> Result<Vec<Residue>, NoMemory>
    ensures { IfOk result (λ values. values.items ≡ inputs.now ++ inputs.now) }
{
    let mut values = Vec::new(alloc);
    values.extend_from_slice(inputs)?;
    values.extend_from_slice(inputs)?;
    Ok(values)
}
