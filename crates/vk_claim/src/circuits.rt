ghost use Rattle.std.specs.Prelude.{◌≡◌, ℕ, List, Option, take, IfOk, IfSome};
ghost use Rattle.vk_plan.specs.Plans.{PlanValue, IsPlan, Holds};
ghost use Rattle.vk_words.specs.declared.claim.Kind.{Kind};
ghost use Rattle.vk_claim.specs.Values.{plan_for};

use crate::front::ClaimHead;
use std::alloc::Global;
use vk_plan::Plan;
use vk_residue::NoMemory;

/// Which public parts are admitted, by which circuit each is shown, and what it claims of the
/// inputs.
pub trait Circuits {
    /// The plan of a part of this kind, with so many inputs and these numbers; none where it isn't
    /// admitted.
    ghost admitted: { Self → Kind → ℕ → List ℕ → Option PlanValue };

    /// What such a part claims of the values of its inputs.
    ghost claim: { Self → Kind → ℕ → List ℕ → List ℕ → Type 0 };

    /// The plan of the part that the head says, where it is admitted.
    fn plan(&self, alloc: Global, head: &ClaimHead) -> Result<Option<Plan>, NoMemory>
        ensures { IfOk result (λ plan. plan ≡ plan_for (admitted self.now) head.now) };

    /// A plan keeps what every plan keeps, and has as many inputs as the part says.
    ghost is_plan: { (circuits : Self) (kind : Kind) (inputs : ℕ) (numbers : List ℕ)
        → IfSome (admitted circuits kind inputs numbers)
        (λ plan. IsPlan plan × (plan.inputs ≡ inputs)) };

    /// Where values hold for the plan, the claim holds of its inputs.
    ghost sound: { (circuits : Self) (kind : Kind) (inputs : ℕ) (numbers values : List ℕ)
        → IfSome (admitted circuits kind inputs numbers)
        (λ plan. Holds plan values → claim circuits kind inputs numbers (take inputs values)) };
}
