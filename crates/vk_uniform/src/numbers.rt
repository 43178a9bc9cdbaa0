// The numbers that are published of a sale.
ghost use Rattle.std.specs.Prelude.{◌≡◌, ◌<◌, ◌≤◌, ◌↔◌, [], All, IfOk, IsTrue};
ghost use Rattle.vk_uniform.specs.Outcomes.{IsPositionAmong, IsAscending};
ghost use Rattle.vk_uniform.specs.UniformPlans.{IsUniformInLimits};

use std::alloc::Global;
use vk_residue::{NoMemory, Residue};

/// The numbers are within their limits, but for the price where all win.
pub(crate) fn are_in_limits(inputs: u32, numbers: &[u64]) -> bool
    ensures { IsTrue result ↔ IsUniformInLimits inputs numbers.now }
{
    if inputs == 0 || inputs > 64 || numbers.len() < 3 {
        return false;
    }
    if numbers[0] == 0 || numbers[0] > 40 {
        return false;
    }
    if numbers[1] >= Residue::pow2(numbers[0] as u32).get() {
        return false;
    }
    are_positions(inputs, &numbers[2..]) && ascend(&numbers[2..])
}

/// Where nobody loses, the price is 0.
pub(crate) fn may_be_paid(price: Residue, losers: &[u32]) -> bool
    ensures { IsTrue result ↔ (losers.now ≡ [] → price ≡ 0) }
{
    !losers.is_empty() || price.get() == 0
}

/// Each is a position of so many bids.
fn are_positions(inputs: u32, positions: &[u64]) -> bool
    ensures { IsTrue result ↔ All (IsPositionAmong inputs) positions.now }
{
    for &position in positions {
        if position == 0 || position > u64::from(inputs) {
            return false;
        }
    }
    true
}

/// Each is above the one before.
fn ascend(numbers: &[u64]) -> bool
    ensures { IsTrue result ↔ IsAscending numbers.now }
{
    for i in 1..numbers.len() {
        if numbers[i - 1] >= numbers[i] {
            return false;
        }
    }
    true
}

/// The positions, in 32 bits each.
pub(crate) fn narrowed(alloc: Global, positions: &[u64]) -> Result<Vec<u32>, NoMemory>
    requires { All (λ position. position < 4294967296) positions.now }
    ensures { IfOk result (λ narrow. narrow.items ≡ positions.now) }
{
    let mut narrow = Vec::new(alloc);
    for &position in positions {
        narrow.push(position as u32)?;
    }
    Ok(narrow)
}
