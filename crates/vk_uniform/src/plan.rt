ghost use Rattle.std.specs.Prelude.{◌≡◌, ◌∷◌};
ghost use Rattle.vk_uniform.specs.Losers.{losers as LosersOf};
ghost use Rattle.vk_uniform.specs.UniformPlans.{IsUniformCase};

use crate::numbers::{are_in_limits, may_be_paid, narrowed};
use crate::outcomes::losers;
use std::alloc::Global;
use vk_residue::{NoMemory, Residue};
use vk_seq::Seq;

/// The plan that shows, of hidden bids, that published positions win a unit each at one published
/// price.
#[derive(Debug, Drop)]
pub struct UniformPlan {
    pub(crate) inputs: u32,
    pub(crate) width: u32,
    pub(crate) price: Residue,
    pub(crate) winners: Seq<u32>,
    pub(crate) losers: Seq<u32>,
    pub ghost in_limits: { IsUniformCase inputs (width ∷ price ∷ winners) },
    pub ghost outside: { losers ≡ LosersOf inputs winners },
}

impl UniformPlan {
    ghost use Rattle.std.specs.Prelude.{◌↔◌, IsSome, IfSome, IfOk};
    ghost use Rattle.vk_uniform.specs.Circuits.{inputs_of, numbers_of};

    /// For so many bids and these numbers: the width of the bids, the price, and the winners'
    /// positions in ascending order. None where there aren't 1 to 64 bids, or a number is missing
    /// or not within its limits: the width is 1 to 40, the price below 2^width and 0 where all win,
    /// and each position, of one at least, is one of the bids'.
    pub fn from_numbers(
        alloc: Global,
        inputs: u32,
        numbers: &[u64],
    ) -> Result<Option<UniformPlan>, NoMemory>
        ensures admitted { IfOk result (λ plan. IsSome plan ↔ IsUniformCase inputs numbers.now) }
        ensures numbers { IfOk result (λ plan. IfSome plan (λ made.
            (inputs_of made ≡ inputs) × (numbers_of made ≡ numbers.now))) }
    {
        if !are_in_limits(inputs, numbers) {
            return Ok(None);
        }
        let price = match Residue::new(numbers[1]) {
            Some(price) => price,
            None => return Ok(None),
        };
        let winners = narrowed(alloc, &numbers[2..])?;
        let losers = losers(alloc, inputs, winners.as_slice())?;
        if !may_be_paid(price, losers.as_slice()) {
            return Ok(None);
        }
        Ok(Some(UniformPlan {
            inputs,
            width: numbers[0] as u32,
            price,
            winners: Seq::from_vec(winners),
            losers: Seq::from_vec(losers),
        }))
    }
}
