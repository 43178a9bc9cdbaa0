ghost use Rattle.std.specs.Prelude.{◌≡◌, ◌*◌, ◌≤◌, length, IfOk};
ghost use Rattle.vk_matching.specs.Stability.{IsPermutation, IsStable};

use crate::courting::Courtship;
use std::alloc::Global;
use vk_residue::NoMemory;

/// A matching that no pair blocks, of so many men and as many women, 1 to 16: for each man in order
/// his woman, counted from 1. The ranks are each man's of all women, man by man, and then each
/// woman's of all men; the less is the better, and ties are allowed. By deferred acceptance, in
/// which men ask (Gale and Shapley, College Admissions and the Stability of Marriage, 1962).
pub fn propose(alloc: Global, size: u32, ranks: &[u64]) -> Result<Vec<u32>, NoMemory>
    requires some { 1 ≤ size }
    requires few { size ≤ 16 }
    requires all_ranks { length ranks.now ≡ 2 * size * size }
    ensures permutation { IfOk result (λ matching. IsPermutation size matching.items) }
    ensures stable { IfOk result (λ matching. IsStable size ranks.now matching.items) }
{
    let mut courtship = Courtship::new(alloc, size as usize)?;
    courtship.settle(ranks);
    let matching = courtship.matching(alloc)?;
    Ok(matching)
}
