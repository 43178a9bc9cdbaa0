ghost use Rattle.std.specs.Prelude.{◌≡◌, ℕ, length, IfOk};
ghost use Rattle.vk_uniform.specs.UniformPlans.{IsUniformClaim, price_selection, row_count, uniform_plan, uniform_ranges, uniform_values, wire_count};
ghost use Rattle.vk_uniform.specs.UniformSelectors.{IsFirstLoserAtPrice, SelectsLoser};
ghost use Rattle.vk_uniform.specs.Circuits.{inputs_of, numbers_of, circuit_begins, circuit_complete, circuit_is_plan, circuit_sound};

use crate::forms::{copies_at, push_bids, push_prices, push_wins};
use crate::plan::UniformPlan;
use std::alloc::Global;
use vk_plan::{Circuit, Plan, Relation};
use vk_range::{Ranges, SelectedIs, ranged_plan, ranged_values};
use vk_residue::{NoMemory, Residue};
use vk_seq::Seq;

impl Circuit for UniformPlan {
    ghost plan_of = { λ c. uniform_plan (inputs_of c) (numbers_of c) };

    ghost is_plan = { circuit_is_plan };

    ghost begins = { circuit_begins };

    ghost claim = { λ c bids. IsUniformClaim (inputs_of c) (numbers_of c) bids };

    ghost filled = { λ c bids. uniform_values (inputs_of c) (numbers_of c) bids };

    ghost sound = { circuit_sound };

    ghost complete = { circuit_complete };

    #[tactic(auto, using(crate::specs::UniformLaws::uniform_inputs))]
    fn inputs(&self) -> u32
        ensures inputs { result ≡ (uniform_plan (inputs_of self.now) (numbers_of self.now)).inputs }
        ensures bids { result ≡ inputs_of self.now }
    {
        self.inputs
    }

    /// For n bids of width t, k winners and m losers it has `2n + m + t(n + km + 2m)` wires and `2n
    /// + km + 2m` rows, and one row more where somebody loses.
    fn plan(&self, alloc: Global) -> Result<Plan, NoMemory>
        ensures plan { IfOk result
            (λ plan. plan ≡ uniform_plan (inputs_of self.now) (numbers_of self.now)) }
        ensures wires { IfOk result
            (λ plan. length plan.kinds ≡ wire_count (inputs_of self.now) (numbers_of self.now)) }
        ensures rows { IfOk result
            (λ plan. length plan.rows ≡ row_count (inputs_of self.now) (numbers_of self.now)) }
    {
        let ranges = self.ranges(alloc)?;
        let mut plan = ranged_plan(alloc, self.inputs, &ranges)?;
        if self.losers.is_empty() {
            return Ok(plan);
        }
        let selection = self.price_selection(alloc)?;
        selection.add(alloc, &mut plan)?;
        Ok(plan)
    }

    /// The selector of the first loser who holds the price is 1, and the other selectors are 0.
    fn fill(&self, alloc: Global, inputs: &[Residue]) -> Result<Vec<Residue>, NoMemory>
        requires { IsUniformClaim (inputs_of self.now) (numbers_of self.now) inputs.now }
        ensures filled { IfOk result (λ values.
            values.items ≡ uniform_values (inputs_of self.now) (numbers_of self.now) inputs.now) }
        ensures selector { IfOk result (λ values.
            (place : ℕ) → IsFirstLoserAtPrice (inputs_of self.now) (numbers_of self.now) inputs.now
            place
            → SelectsLoser (inputs_of self.now) (numbers_of self.now) values.items place) }
    {
        let ranges = self.ranges(alloc)?;
        let mut values = ranged_values(alloc, inputs, &ranges)?;
        if self.losers.is_empty() {
            return Ok(values);
        }
        let selection = self.price_selection(alloc)?;
        selection.fill(&mut values)?;
        Ok(values)
    }
}

impl UniformPlan {
    /// That the bids are of the width, that each winner's is above the losers', and that none of
    /// these is above the price.
    fn ranges(&self, alloc: Global) -> Result<Ranges, NoMemory>
        ensures { IfOk result (λ ranges. ranges
            ≡ uniform_ranges (inputs_of self.now) (numbers_of self.now)) }
    {
        let losers = self.losers.as_slice();
        let mut forms = Vec::new(alloc);
        push_bids(alloc, self.inputs, &mut forms)?;
        push_wins(
            alloc,
            self.inputs,
            self.winners.as_slice(),
            losers,
            &mut forms,
        )?;
        push_prices(alloc, self.inputs, losers, self.price, &mut forms)?;
        Ok(Ranges {
            forms: Seq::from_vec(forms),
            width: self.width,
        })
    }

    /// One of the losers' copies is the price.
    fn price_selection(&self, alloc: Global) -> Result<SelectedIs, NoMemory>
        ensures { IfOk result (λ selection. selection
            ≡ price_selection (inputs_of self.now) (numbers_of self.now)) }
    {
        let wires = copies_at(alloc, self.inputs, self.losers.as_slice())?;
        Ok(SelectedIs {
            wires: Seq::from_vec(wires),
            value: self.price,
            width: self.width,
        })
    }
}
