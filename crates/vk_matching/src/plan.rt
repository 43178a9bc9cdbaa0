ghost use Rattle.std.specs.Prelude.{◌≡◌, ◌∷◌};
ghost use Rattle.vk_matching.specs.Couples.{husbands_of};
ghost use Rattle.vk_matching.specs.MatchingPlans.{IsMatchingCase};

use crate::numbers::{are_in_limits, husbands};
use std::alloc::Global;
use vk_residue::NoMemory;
use vk_seq::Seq;

/// The plan that shows, of hidden ranks, that no man and woman would rather leave whom a published
/// matching gives them.
#[derive(Debug, Drop)]
pub struct MatchingPlan {
    pub(crate) inputs: u32,
    pub(crate) width: u32,
    pub(crate) wives: Seq<u64>,
    pub(crate) husbands: Seq<u32>,
    pub ghost in_limits: { IsMatchingCase inputs (width ∷ wives) },
    pub ghost couples: { husbands ≡ husbands_of wives },
}

impl MatchingPlan {
    ghost use Rattle.vk_matching.specs.Circuits.{inputs_of, numbers_of};
    ghost use Rattle.std.specs.Prelude.{◌↔◌, IsSome, IfSome, IfOk};

    /// For so many ranks and these numbers: the width of the ranks and then, for each man in order,
    /// his woman. None where the width isn't 1 to 16, there aren't 1 to 16 men, one of as many
    /// women isn't matched with one of them, or there aren't twice as many ranks as pairs of a man
    /// and a woman.
    pub fn from_numbers(
        alloc: Global,
        inputs: u32,
        numbers: &[u64],
    ) -> Result<Option<MatchingPlan>, NoMemory>
        ensures numbers { IfOk result (λ plan. IfSome plan (λ made.
            (inputs_of made ≡ inputs) × (numbers_of made ≡ numbers.now))) }
        ensures admitted { IfOk result (λ plan. IsSome plan ↔ IsMatchingCase inputs numbers.now) }
    {
        if !are_in_limits(inputs, numbers) {
            return Ok(None);
        }
        let wives = &numbers[1..];
        let husbands = match husbands(alloc, wives)? {
            Some(husbands) => husbands,
            None => return Ok(None),
        };
        let wives = Vec::from_slice(alloc, wives)?;
        Ok(Some(MatchingPlan {
            inputs,
            width: numbers[0] as u32,
            wives: Seq::from_vec(wives),
            husbands: Seq::from_vec(husbands),
        }))
    }
}
