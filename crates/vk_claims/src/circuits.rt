//! The circuits that claims may be of.

ghost use Rattle.std.specs.Prelude.{◌≡◌, IfOk, option_map};
ghost use Rattle.vk_claims.specs.Circuits.{admitted_plan, claimed, claims_are_sound, plans_are_right};
ghost use Rattle.vk_words.specs.declared.claim.Kind.TheVariants.{Uniform, Matching};

use std::alloc::Global;
use vk_claim::{Circuits, ClaimHead, Kind};
use vk_matching::MatchingPlan;
use vk_plan::{Circuit, Plan};
use vk_residue::NoMemory;
use vk_uniform::UniformPlan;

/// The circuits that claims may be of: by the kind of the public part.
#[derive(Clone, Copy, Debug)]
pub struct ClaimCircuits;

impl Circuits for ClaimCircuits {
    ghost admitted = { λ _. admitted_plan };

    ghost claim = { λ _. claimed };

    ghost is_plan = { λ _. plans_are_right };

    ghost sound = { λ _. claims_are_sound };

    fn plan(&self, alloc: Global, head: &ClaimHead) -> Result<Option<Plan>, NoMemory> {
        let inputs = head.inputs;
        let numbers = head.numbers.as_slice();
        match head.kind {
            Kind::Uniform => {
                let plan = plan_of_units(alloc, inputs, numbers)?;
                Ok(plan)
            }
            Kind::Matching => {
                let plan = plan_of_matching(alloc, inputs, numbers)?;
                Ok(plan)
            }
        }
    }
}

/// The plan of a sale of equal units at one price, where it may have these numbers.
fn plan_of_units(alloc: Global, inputs: u32, numbers: &[u64]) -> Result<Option<Plan>, NoMemory>
    ensures { IfOk result (λ plan. plan ≡ admitted_plan Uniform inputs numbers.now) }
{
    let circuit = UniformPlan::from_numbers(alloc, inputs, numbers)?;
    let plan = plan_in(alloc, &circuit)?;
    Ok(plan)
}

/// The plan of a stable matching, where it may have these numbers.
fn plan_of_matching(alloc: Global, inputs: u32, numbers: &[u64]) -> Result<Option<Plan>, NoMemory>
    ensures { IfOk result (λ plan. plan ≡ admitted_plan Matching inputs numbers.now) }
{
    let circuit = MatchingPlan::from_numbers(alloc, inputs, numbers)?;
    let plan = plan_in(alloc, &circuit)?;
    Ok(plan)
}

/// The plan of a circuit, where there is one.
fn plan_in<C: Circuit>(alloc: Global, circuit: &Option<C>) -> Result<Option<Plan>, NoMemory>
    ensures { IfOk result (λ plan. plan ≡ option_map C.plan_of circuit.now) }
{
    match circuit {
        Some(circuit) => {
            let plan = circuit.plan(alloc)?;
            Ok(Some(plan))
        }
        None => Ok(None),
    }
}
