ghost use Rattle.std.specs.Prelude.{◌≡◌, List, ℕ, length, take, IfOk};
ghost use Rattle.vk_plan.specs.Plans.{PlanValue, IsPlan, Holds};

use crate::plan::Plan;
use std::alloc::Global;
use vk_residue::{NoMemory, Residue};

/// A plan that shows a claim on its inputs, and the values that hold for it.
pub trait Circuit {
    ghost plan_of: { Self → PlanValue };

    /// What the plan shows of the inputs.
    ghost claim: { Self → List ℕ → Type 0 };

    /// The values of all wires where the claim holds of the inputs.
    ghost filled: { Self → List ℕ → List ℕ };

    /// How many inputs there are.
    fn inputs(&self) -> u32
        ensures { result ≡ (plan_of self.now).inputs };

    fn plan(&self, alloc: Global) -> Result<Plan, NoMemory>
        ensures { IfOk result (λ plan. plan ≡ plan_of self.now) };

    /// The values of all wires. Condition: the claim holds of the inputs.
    fn fill(&self, alloc: Global, inputs: &[Residue]) -> Result<Vec<Residue>, NoMemory>
        requires { claim self.now inputs.now }
        ensures { IfOk result (λ values. values.items ≡ filled self.now inputs.now) };

    /// Its plan keeps what every plan keeps.
    ghost is_plan: { (circuit : Self) → IsPlan (plan_of circuit) };

    /// The values begin with the inputs.
    ghost begins: { (circuit : Self) (inputs : List ℕ) → claim circuit inputs
        → take (plan_of circuit).inputs (filled circuit inputs) ≡ inputs };

    /// Where values hold for the plan, the claim holds of its inputs.
    ghost sound: { (circuit : Self) (values : List ℕ) → Holds (plan_of circuit) values
        → claim circuit (take (plan_of circuit).inputs values) };

    /// Where the claim holds of the inputs, the values hold for the plan.
    ghost complete: { (circuit : Self) (inputs : List ℕ) → claim circuit inputs
        → Holds (plan_of circuit) (filled circuit inputs) };
}
