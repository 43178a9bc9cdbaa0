// The numbers that are published of a matching.
ghost use Rattle.std.specs.Prelude.{◌≡◌, ◌<◌, ◌≤◌, ◌↔◌, length, IfOk, IfSome, IsSome, IsTrue};
ghost use Rattle.vk_matching.specs.Stability.{IsPermutation};
ghost use Rattle.vk_matching.specs.Couples.{husbands_of};
ghost use Rattle.vk_matching.specs.MatchingPlans.{IsMatchingInLimits};

use std::alloc::Global;
use vk_residue::NoMemory;

/// The numbers are within their limits, but for whom each man is matched with.
pub(crate) fn are_in_limits(inputs: u32, numbers: &[u64]) -> bool
    ensures { IsTrue result ↔ IsMatchingInLimits inputs numbers.now }
{
    if numbers.len() < 2 || numbers.len() > 17 {
        return false;
    }
    if numbers[0] == 0 || numbers[0] > 16 {
        return false;
    }
    let size = numbers.len() as u32 - 1;
    inputs == 2 * size * size
}

/// The man of each woman, where each man has a woman of his own.
pub(crate) fn husbands(alloc: Global, wives: &[u64]) -> Result<Option<Vec<u32>>, NoMemory>
    requires { length wives.now ≤ 16 }
    ensures permutation { IfOk result
        (λ found. IsSome found ↔ IsPermutation (length wives.now) wives.now) }
    ensures husbands { IfOk result
        (λ found. IfSome found (λ husbands. husbands.items ≡ husbands_of wives.now)) }
{
    let mut husbands = vec![in alloc; 0; wives.len()]?;
    for place in 0..wives.len() {
        let wife = wives[place];
        if wife == 0 || wife > wives.len() as u64 || husbands[wife as usize - 1] != 0 {
            return Ok(None);
        }
        husbands[wife as usize - 1] = place as u32 + 1;
    }
    Ok(Some(husbands))
}
