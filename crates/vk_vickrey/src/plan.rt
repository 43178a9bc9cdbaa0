ghost use Rattle.std.specs.Prelude.{◌≡◌, ◌+◌, ◌-◌, ◌*◌, ◌<◌, ◌≤◌, ◌↔◌, ◌++◌, ◌∷◌, [], List, ℕ, length, take, IsSome, IfSome, IfOk, OnOk, nat_lt};
ghost use Rattle.vk_plan.specs.Plans.{PlanValue, Holds, IsPlan, extended};
ghost use Rattle.vk_range.specs.Others.{other as OtherPlace};
ghost use Rattle.vk_range.specs.Ranged.{ranges_of};
ghost use Rattle.vk_vickrey.specs.VickreyPlans.{IsVickreyCase, IsVickreyClaim, vickrey_plan, wire_count, row_count, honest_values, price_selection, vickrey_forms};
ghost use Rattle.vk_vickrey.specs.VickreyLaws.{vickrey_complete};
ghost use Rattle.vk_vickrey.specs.VickreyRanges.{values_before, with_prices};
ghost use Rattle.vk_vickrey.specs.VickreySelectors.{IsFirstHolder, SelectsAt, selectors_start};
ghost use Rattle.vk_vickrey.specs.VickreySteps.{circuit_begins, circuit_sound, vickrey_is_plan};

use crate::forms::{of_width, other_copy, residue_of, vickrey_forms};
use crate::outcomes::VickreyOutcome;
use std::alloc::Global;
use vk_plan::{Circuit, Plan, Relation};
use vk_range::{Ranges, SelectedIs, ranged_plan, ranged_values};
use vk_residue::{NoMemory, Residue};
use vk_seq::Seq;

/// The plan that shows, of hidden bids, that a published position wins at a published price.
#[derive(Clone, Copy, Debug)]
pub struct VickreyPlan {
    /// How many bids there are, 1 to 64.
    pub seals: u32,
    /// Each bid is below 2^width, for a width of 1 to 40.
    pub width: u32,
    /// The winner's place among the bids, counted from 1.
    pub position: u32,
    /// What the winner pays, below 2^width, and 0 where there is one bid.
    pub price: u64,
    pub ghost in_limits: { IsVickreyCase seals width position price },
}

impl VickreyPlan {
    /// None where a number is not within its limits. Takes no memory.
    pub fn new(seals: u32, width: u32, outcome: VickreyOutcome) -> Option<VickreyPlan>
        ensures admitted { IsSome result
            ↔ IsVickreyCase seals width outcome.position outcome.price }
        ensures numbers { IfSome result (λ plan.
            (plan.seals ≡ seals) × (plan.width ≡ width) × (plan.position ≡ outcome.position)
            × (plan.price ≡ outcome.price)) }
    {
        if seals == 0 || seals > 64 || width == 0 || width > 40 {
            return None;
        }
        if outcome.position == 0 || outcome.position > seals {
            return None;
        }
        if outcome.price >= Residue::pow2(width).get() || (seals == 1 && outcome.price != 0) {
            return None;
        }
        Some(VickreyPlan {
            seals,
            width,
            position: outcome.position,
            price: outcome.price,
        })
    }
}

impl Circuit for VickreyPlan {
    ghost plan_of = { λ c. vickrey_plan c.seals c.width c.position c.price };

    ghost claim = { λ c bids. IsVickreyClaim c.seals c.width c.position c.price bids };

    ghost filled = { λ c bids. honest_values c.seals c.width c.position c.price bids };

    ghost is_plan = { λ c. vickrey_is_plan c.seals c.width c.position c.price c.in_limits };

    ghost begins = { λ c bids claim. circuit_begins c.seals c.width c.position c.price bids claim };

    ghost sound = { λ c values holds. circuit_sound c.seals c.width c.position c.price values
        c.in_limits holds };

    ghost complete = { λ c bids claim. vickrey_complete c.seals c.width c.position c.price bids
        c.in_limits claim };

    #[tactic(auto, unfolding(crate::specs::VickreyPlans::vickrey_plan))]
    fn inputs(&self) -> u32
        ensures inputs { result
            ≡ (vickrey_plan self.now.seals self.now.width self.now.position self.now.price).inputs }
        ensures seals { result ≡ self.now.seals }
    {
        self.seals
    }

    /// For n bids of width t it has `2n + (n - 1) + t(4n - 3)` wires and `5n - 2` rows, or 2 rows
    /// for one bid.
    fn plan(&self, alloc: Global) -> Result<Plan, NoMemory>
        ensures plan { IfOk result
            (λ plan. plan ≡ vickrey_plan self.now.seals self.now.width self.now.position
            self.now.price) }
        ensures wires { IfOk result
            (λ plan. length plan.kinds ≡ wire_count self.now.seals self.now.width) }
        ensures rows { IfOk result (λ plan. length plan.rows ≡ row_count self.now.seals) }
    {
        let mut plan = self.plan_before_selection(alloc)?;
        if self.seals == 1 {
            return Ok(plan);
        }
        let selection = self.price_selection(alloc)?;
        selection.add(alloc, &mut plan)?;
        Ok(plan)
    }

    /// The selector of the first other place that holds the price is 1, and the other selectors are
    /// 0.
    fn fill(&self, alloc: Global, inputs: &[Residue]) -> Result<Vec<Residue>, NoMemory>
        requires { IsVickreyClaim self.now.seals self.now.width self.now.position self.now.price
            inputs.now }
        ensures filled { IfOk result (λ values.
            values.items ≡ honest_values self.now.seals self.now.width self.now.position
            self.now.price inputs.now) }
        ensures selector { IfOk result (λ values.
            (place : ℕ) → place < self.now.seals - 1
            → IsFirstHolder inputs.now (self.now.position - 1) self.now.price place
            → SelectsAt values.items (selectors_start self.now.seals self.now.width)
            (self.now.seals - 1) place) }
    {
        let mut values = self.values_before_selection(alloc, inputs)?;
        if self.seals == 1 {
            return Ok(values);
        }
        let selection = self.price_selection(alloc)?;
        selection.fill(&mut values)?;
        Ok(values)
    }
}

impl VickreyPlan {
    /// The winner's place, counted from 0.
    fn winner(&self) -> u32
        ensures value { result ≡ self.now.position - 1 }
        ensures inside { result < self.now.seals }
    {
        self.position - 1
    }

    fn price_residue(&self) -> Residue
        ensures { result ≡ self.now.price }
    {
        residue_of(self.price, self.width)
    }

    /// That the bids are of the width, that the winner's is above the others, and that none of the
    /// others is above the price.
    fn ranges(&self, alloc: Global) -> Result<Ranges, NoMemory>
        ensures { IfOk result (λ relation.
            relation ≡ ranges_of (vickrey_forms self.now.seals (self.now.position - 1)
            self.now.price) self.now.width) }
    {
        let forms = vickrey_forms(alloc, self.seals, self.winner(), self.price_residue())?;
        Ok(of_width(forms, self.width))
    }

    /// One of the others' copies is the price.
    fn price_selection(&self, alloc: Global) -> Result<SelectedIs, NoMemory>
        ensures { IfOk result (λ relation.
            relation ≡ price_selection self.now.seals self.now.width (self.now.position - 1)
            self.now.price) }
    {
        let mut wires = Vec::new(alloc);
        for k in 0..self.seals - 1 {
            wires.push(other_copy(self.seals, self.winner(), k))?;
        }
        Ok(SelectedIs {
            wires: Seq::from_vec(wires),
            value: self.price_residue(),
            width: self.width,
        })
    }

    /// The bids, their copies, and the sets of the bids, the wins and the prices.
    fn plan_before_selection(&self, alloc: Global) -> Result<Plan, NoMemory>
        ensures { IfOk result (λ plan.
            plan ≡ with_prices self.now.seals self.now.width (self.now.position - 1)
            self.now.price) }
    {
        let relation = self.ranges(alloc)?;
        let plan = ranged_plan(alloc, self.seals, &relation)?;
        Ok(plan)
    }

    /// The values of these wires.
    fn values_before_selection(
        &self,
        alloc: Global,
        bids: &[Residue],
    ) -> Result<Vec<Residue>, NoMemory>
        requires { IsVickreyClaim self.now.seals self.now.width self.now.position self.now.price
            bids.now }
        ensures { IfOk result (λ values.
            values.items ≡ values_before self.now.seals self.now.width (self.now.position - 1)
            self.now.price bids.now) }
    {
        let relation = self.ranges(alloc)?;
        let values = ranged_values(alloc, bids, &relation)?;
        Ok(values)
    }
}
