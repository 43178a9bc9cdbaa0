ghost use Rattle.std.specs.Prelude.{◌≡◌, ◌<◌, ◌≤◌, length, IsNone, IfSome, IfOk};
ghost use Rattle.vk_vickrey.specs.declared.sales.Sale.TheVariants.{Sold as SoldTo};
ghost use Rattle.vk_vickrey.specs.ReservePlans.{IsBoardClaim, IsWithinReserve, reserve_plan, reserve_values, sale_ranges, sale_row_count, sale_wire_count};
ghost use Rattle.vk_vickrey.specs.ReserveLaws.{sale_begins, sale_complete, sale_is_plan, sale_sound};

use crate::forms::{of_width, reserve_forms, residue_of, unsold_forms};
use crate::plan::VickreyPlan;
use crate::reserve::ReservePlan;
use crate::sales::Sale;
use std::alloc::Global;
use vk_plan::{Circuit, Plan};
use vk_range::{Ranges, ranged_plan, ranged_values};
use vk_residue::{NoMemory, Residue};

impl Circuit for ReservePlan {
    ghost plan_of = { λ c. reserve_plan c.seals c.width c.reserve c.sale };

    ghost claim = { λ c bids. IsBoardClaim c.seals c.width c.reserve c.sale bids };

    ghost filled = { λ c bids. reserve_values c.seals c.width c.reserve c.sale bids };

    ghost is_plan = { sale_is_plan };

    ghost begins = { sale_begins };

    ghost sound = { sale_sound };

    ghost complete = { sale_complete };

    #[tactic(auto, using(crate::specs::ReserveLaws::reserve_inputs))]
    fn inputs(&self) -> u32
        ensures inputs { result
            ≡ (reserve_plan self.now.seals self.now.width self.now.reserve self.now.sale).inputs }
        ensures seals { result ≡ self.now.seals }
    {
        self.seals
    }

    /// For n bids of width t: unsold `2n + 2nt` wires and `3n` rows, sold at the reserve `2n + t(3n
    /// - 1)` wires and `4n - 1` rows, and above it as many as without one.
    fn plan(&self, alloc: Global) -> Result<Plan, NoMemory>
        ensures plan { IfOk result
            (λ plan. plan ≡ reserve_plan self.now.seals self.now.width self.now.reserve
            self.now.sale) }
        ensures wires { IfOk result
            (λ plan. length plan.kinds
            ≡ sale_wire_count self.now.seals self.now.width self.now.reserve self.now.sale) }
        ensures rows { IfOk result
            (λ plan. length plan.rows
            ≡ sale_row_count self.now.seals self.now.reserve self.now.sale) }
    {
        if let Some(vickrey) = self.above_reserve() {
            let plan = vickrey.plan(alloc)?;
            return Ok(plan);
        }
        let ranges = self.ranges(alloc)?;
        let plan = ranged_plan(alloc, self.seals, &ranges)?;
        Ok(plan)
    }

    /// Above the reserve as without one; else there are no selectors, as
    /// `first_holders_are_selected` says.
    fn fill(&self, alloc: Global, inputs: &[Residue]) -> Result<Vec<Residue>, NoMemory>
        requires { IsBoardClaim self.now.seals self.now.width self.now.reserve self.now.sale
            inputs.now }
        ensures { IfOk result (λ values.
            values.items ≡ reserve_values self.now.seals self.now.width self.now.reserve
            self.now.sale inputs.now) }
    {
        if let Some(vickrey) = self.above_reserve() {
            let values = vickrey.fill(alloc, inputs)?;
            return Ok(values);
        }
        let ranges = self.ranges(alloc)?;
        let values = ranged_values(alloc, inputs, &ranges)?;
        Ok(values)
    }
}

impl ReservePlan {
    /// Where the price is above the reserve, the plan without a reserve.
    fn above_reserve(&self) -> Option<VickreyPlan>
        ensures above { IfSome result
            (λ plan. (plan.seals ≡ self.now.seals) × (plan.width ≡ self.now.width)
            × (self.now.sale ≡ SoldTo plan.position plan.price) × (self.now.reserve < plan.price)) }
        ensures within { IsNone result → IsWithinReserve self.now.reserve self.now.sale }
    {
        match self.sale {
            Sale::Sold { position, price } => {
                if price <= self.reserve {
                    return None;
                }
                Some(VickreyPlan {
                    seals: self.seals,
                    width: self.width,
                    position,
                    price,
                })
            }
            Sale::Unsold => None,
        }
    }

    /// What is of the width where the price isn't above the reserve.
    fn ranges(&self, alloc: Global) -> Result<Ranges, NoMemory>
        ensures { IfOk result (λ ranges.
            ranges ≡ sale_ranges self.now.seals self.now.width self.now.reserve self.now.sale) }
    {
        match self.sale {
            Sale::Sold { position, .. } => {
                let reserve = residue_of(self.reserve, self.width);
                let forms = reserve_forms(alloc, self.seals, position - 1, reserve)?;
                Ok(of_width(forms, self.width))
            }
            Sale::Unsold => {
                let limit = residue_of(self.reserve - 1, self.width);
                let forms = unsold_forms(alloc, self.seals, limit)?;
                Ok(of_width(forms, self.width))
            }
        }
    }
}
