ghost use Rattle.std.specs.Prelude.{◌≡◌, ◌<◌, ℕ, length, IfOk};
ghost use Rattle.vk_matching.specs.Stability.{IsPerson, his_place, her_place, wife_of};
ghost use Rattle.vk_matching.specs.Couples.{husband_of};
ghost use Rattle.vk_matching.specs.MatchingPlans.{copy_at, either_at, man_at, matching_of, matching_values, pair_count, rank_ranges, row_count, size_of, wire_count, woman_at};
ghost use Rattle.vk_matching.specs.Circuits.{inputs_of, numbers_of, planned, claim_of, circuit_begins, circuit_complete, circuit_is_plan, circuit_sound};

use crate::either::EitherAtLeast;
use crate::plan::MatchingPlan;
use std::alloc::Global;
use vk_plan::{Circuit, Plan, Relation};
use vk_range::{Ranges, one_term, other, ranged_plan, ranged_values};
use vk_residue::{NoMemory, Residue};
use vk_seq::Seq;

impl Circuit for MatchingPlan {
    ghost plan_of = { planned };

    ghost is_plan = { circuit_is_plan };

    ghost claim = { claim_of };

    ghost filled = { λ c ranks. matching_values (inputs_of c) (numbers_of c) ranks };

    ghost begins = { circuit_begins };

    ghost sound = { circuit_sound };

    ghost complete = { circuit_complete };

    #[tactic(auto, using(crate::specs::MatchingLaws::matching_inputs))]
    fn inputs(&self) -> u32
        ensures ranks { result ≡ inputs_of self.now }
        ensures inputs { result ≡ (planned self.now).inputs }
    {
        self.inputs
    }

    /// For n men and ranks of width t it has `4n^2 + 2n^2*t + n(n-1)(2t + 3)` wires and `4n^2 +
    /// 2n(n-1)` rows.
    fn plan(&self, alloc: Global) -> Result<Plan, NoMemory>
        ensures plan { IfOk result (λ plan. plan ≡ planned self.now) }
        ensures wires { IfOk result (λ plan. length plan.kinds ≡ wire_count (numbers_of self.now)) }
        ensures rows { IfOk result (λ plan. length plan.rows ≡ row_count (numbers_of self.now)) }
    {
        let ranges = self.ranges(alloc)?;
        let mut plan = ranged_plan(alloc, self.inputs, &ranges)?;
        for pair in 0..self.pairs() {
            self.either(pair).add(alloc, &mut plan)?;
        }
        Ok(plan)
    }

    fn fill(&self, alloc: Global, inputs: &[Residue]) -> Result<Vec<Residue>, NoMemory>
        requires { claim_of self.now inputs.now }
        ensures { IfOk result (λ values.
            values.items ≡ matching_values (inputs_of self.now) (numbers_of self.now) inputs.now) }
    {
        let ranges = self.ranges(alloc)?;
        let mut values = ranged_values(alloc, inputs, &ranges)?;
        for pair in 0..self.pairs() {
            self.either(pair).fill(&mut values)?;
        }
        Ok(values)
    }
}

impl MatchingPlan {
    /// That the copy of each rank is of the width.
    fn ranges(&self, alloc: Global) -> Result<Ranges, NoMemory>
        ensures { IfOk result (λ ranges. ranges
            ≡ rank_ranges (inputs_of self.now) (numbers_of self.now)) }
    {
        let mut forms = Vec::new(alloc);
        for place in 0..self.inputs {
            let form = one_term(alloc, self.inputs + place, Residue::ONE, Residue::ZERO)?;
            forms.push(form)?;
        }
        Ok(Ranges {
            forms: Seq::from_vec(forms),
            width: self.width,
        })
    }

    /// How many men there are.
    fn size(&self) -> u32
        ensures { result ≡ size_of (numbers_of self.now) }
    {
        self.wives.len() as u32
    }

    /// How many pairs there are of a man and a woman other than his own.
    fn pairs(&self) -> u32
        ensures { result ≡ pair_count (size_of (numbers_of self.now)) }
    {
        let size = self.size();
        size * (size - 1)
    }

    /// The copy of a man's rank of a woman.
    fn his_copy(&self, man: u32, woman: u32) -> u32
        requires man { IsPerson (size_of (numbers_of self.now)) man }
        requires woman { IsPerson (size_of (numbers_of self.now)) woman }
        ensures { result ≡ copy_at (inputs_of self.now)
            (his_place (size_of (numbers_of self.now)) man woman) }
    {
        self.inputs + ((man - 1) * self.size() + (woman - 1))
    }

    /// The copy of a woman's rank of a man.
    fn her_copy(&self, woman: u32, man: u32) -> u32
        requires woman { IsPerson (size_of (numbers_of self.now)) woman }
        requires man { IsPerson (size_of (numbers_of self.now)) man }
        ensures { result ≡ copy_at (inputs_of self.now)
            (her_place (size_of (numbers_of self.now)) woman man) }
    {
        let size = self.size();
        self.inputs + (size * size + (woman - 1) * size + (man - 1))
    }

    /// The man of a pair.
    fn man_at(&self, pair: u32) -> u32
        requires { pair < pair_count (size_of (numbers_of self.now)) }
        ensures man { result ≡ man_at (size_of (numbers_of self.now)) pair }
        ensures person { IsPerson (size_of (numbers_of self.now)) result }
    {
        pair / (self.size() - 1) + 1
    }

    /// The woman of a pair.
    fn woman_at(&self, pair: u32) -> u32
        requires { pair < pair_count (size_of (numbers_of self.now)) }
        ensures woman { result
            ≡ woman_at (size_of (numbers_of self.now)) (matching_of (numbers_of self.now)) pair }
        ensures person { IsPerson (size_of (numbers_of self.now)) result }
    {
        let wife = self.wife(self.man_at(pair));
        other(wife - 1, pair % (self.size() - 1)) + 1
    }

    /// The woman that a man is matched with.
    fn wife(&self, man: u32) -> u32
        requires { IsPerson (size_of (numbers_of self.now)) man }
        ensures wife { result ≡ wife_of (matching_of (numbers_of self.now)) man }
        ensures person { IsPerson (size_of (numbers_of self.now)) result }
    {
        self.wives.as_slice()[man as usize - 1] as u32
    }

    /// The man that a woman is matched with.
    fn husband(&self, woman: u32) -> u32
        requires { IsPerson (size_of (numbers_of self.now)) woman }
        ensures husband { result ≡ husband_of (matching_of (numbers_of self.now)) woman }
        ensures person { IsPerson (size_of (numbers_of self.now)) result }
    {
        self.husbands.as_slice()[woman as usize - 1]
    }

    /// That of a pair one doesn't prefer the other to whom the matching gives.
    fn either(&self, pair: u32) -> EitherAtLeast
        requires { pair < pair_count (size_of (numbers_of self.now)) }
        ensures { result ≡ either_at (inputs_of self.now) (numbers_of self.now) pair }
    {
        let man = self.man_at(pair);
        let woman = self.woman_at(pair);
        EitherAtLeast {
            first_left: self.his_copy(man, woman),
            first_right: self.his_copy(man, self.wife(man)),
            second_left: self.her_copy(woman, man),
            second_right: self.her_copy(woman, self.husband(woman)),
            width: self.width,
        }
    }
}
