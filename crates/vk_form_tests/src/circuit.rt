// The circuit of a sum file.
ghost use Rattle.std.specs.Prelude.{◌≡◌, ◌<◌, ◌≤◌, ℕ, IsNone, IfOk, IfSome};
ghost use Rattle.vk_range.specs.Sets.{plus};
ghost use Rattle.vk_form_tests.specs.Sums.{SumTo, input_ranges, sum_plan, sum_values, total_form};
ghost use Rattle.vk_form_tests.specs.SumLaws.{sum_begins, sum_complete, sum_is_plan, sum_sound};

use std::alloc::Global;
use vk_plan::{Circuit, Form, Plan, Relation, Term};
use vk_range::{Ranges, SumIs, one_term};
use vk_residue::{NoMemory, Residue};
use vk_seq::Seq;

/// The circuit that shows, of three hidden numbers, that each is below 2^3 and that they come to a
/// published total.
#[derive(Clone, Copy)]
pub struct SumPlan {
    /// At most 21.
    pub total: u64,
    pub ghost in_limits: { total ≤ 21 },
}

impl SumPlan {
    /// The circuit of these numbers at their total. None where they aren't three, or one isn't
    /// below 2^3.
    #[tactic(auto, using(crate::proofs::Totals::three_sum, crate::proofs::Totals::few_refused, crate::proofs::Totals::large_refused))]
    pub fn of(numbers: &[Residue]) -> Option<SumPlan>
        ensures claim { IfSome result (λ circuit. SumTo circuit.total numbers.now) }
        ensures refused { IsNone result → (total : ℕ) → ¬ SumTo total numbers.now }
    {
        if numbers.len() != 3 {
            return None;
        }
        let (first, second, third) = (numbers[0].get(), numbers[1].get(), numbers[2].get());
        if first >= 8 || second >= 8 || third >= 8 {
            return None;
        }
        Some(SumPlan {
            total: first + second + third,
        })
    }
}

impl Circuit for SumPlan {
    ghost plan_of = { λ c. sum_plan c.total };

    ghost claim = { λ c numbers. SumTo c.total numbers };

    ghost filled = { λ _ numbers. sum_values numbers };

    ghost is_plan = { λ c. sum_is_plan c.total };

    ghost begins = { λ c numbers claim. sum_begins c.total numbers claim };

    ghost sound = { λ c values holds. sum_sound c.total values c.in_limits holds };

    ghost complete = { λ c numbers claim. sum_complete c.total numbers c.in_limits claim };

    #[tactic(auto, unfolding(crate::specs::Sums::sum_plan))]
    fn inputs(&self) -> u32 {
        3
    }

    #[tactic(auto, unfolding(crate::specs::Sums::sum_plan))]
    fn plan(&self, alloc: Global) -> Result<Plan, NoMemory> {
        let mut plan = Plan::new(alloc, 3)?;
        let total = total_row(alloc, self.total)?;
        total.add(alloc, &mut plan)?;
        let ranges = ranges(alloc)?;
        ranges.add(alloc, &mut plan)?;
        Ok(plan)
    }

    fn fill(&self, alloc: Global, inputs: &[Residue]) -> Result<Vec<Residue>, NoMemory> {
        let mut values = Vec::from_slice(alloc, inputs)?;
        let ranges = ranges(alloc)?;
        ranges.fill(&mut values)?;
        Ok(values)
    }
}

/// The inputs come to the total.
fn total_row(alloc: Global, total: u64) -> Result<SumIs, NoMemory>
    requires { total ≤ 21 }
    ensures { IfOk result (λ relation. relation.form ≡ total_form total) }
{
    let terms = Vec::from_slice(alloc, &[input(0), input(1), input(2)])?;
    let total = Residue::new(total).unwrap_or(Residue::ZERO);
    Ok(SumIs {
        form: Form {
            terms: Seq::from_vec(terms),
            constant: total.neg(),
        },
    })
}

/// The input as it is.
fn input(wire: u32) -> Term
    ensures { result ≡ plus wire }
{
    Term {
        wire,
        factor: Residue::ONE,
    }
}

/// Each input is below 2^3.
fn ranges(alloc: Global) -> Result<Ranges, NoMemory>
    ensures { IfOk result (λ relation. relation ≡ input_ranges) }
{
    let mut forms = Seq::new(alloc);
    for wire in 0..3 {
        let form = one_term(alloc, wire, Residue::ONE, Residue::ZERO)?;
        forms.push(form)?;
    }
    Ok(Ranges { forms, width: 3 })
}
