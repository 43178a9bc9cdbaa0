ghost use Rattle.std.specs.Prelude.{◌≡◌, ◌+◌, ◌<◌, ◌≤◌, List, ℕ, All, length, IfOk};
ghost use Rattle.vk_uniform.specs.Outcomes.{IsPositionAmong, IsAscending, IsUniformOutcome};
ghost use Rattle.vk_uniform.specs.OutcomeLaws.{IsWeakest};
ghost use Rattle.vk_uniform.specs.Losers.{positions, losers as LosersOf};

use std::alloc::Global;
use vk_residue::NoMemory;
use vk_seq::Seq;

/// Who wins a unit each, and what each of them pays.
#[derive(Debug, Drop)]
pub struct UniformOutcome {
    /// The winners' places among the bids, counted from 1, in ascending order.
    pub winners: Seq<u32>,
    /// The greatest of the other bids, 0 where there is none.
    pub price: u64,
}

/// The outcome of at most 64 bids for so many units, 1 to the number of bids: the winners are the
/// first of those who bid most, and pay the greatest of the rest.
pub fn uniform(alloc: Global, bids: &[u64], units: u32) -> Result<UniformOutcome, NoMemory>
    requires some { 1 ≤ units }
    requires enough { units ≤ length bids.now }
    requires most { length bids.now ≤ 64 }
    ensures outcome { IfOk result
        (λ outcome. IsUniformOutcome bids.now outcome.winners outcome.price) }
    ensures units { IfOk result (λ outcome. length outcome.winners ≡ units) }
    ensures no_other { IfOk result
        (λ outcome. (winners : List ℕ) (price : ℕ) → IsUniformOutcome bids.now winners price
        → length winners ≡ units → (winners ≡ outcome.winners) × (price ≡ outcome.price)) }
{
    let mut winners = positions(alloc, bids.len())?;
    let mut price = 0;
    for _taken in 0..bids.len() - units as usize {
        let place = weakest(bids, winners.as_slice());
        let position = winners.remove(place);
        price = bids[position as usize - 1];
    }
    Ok(UniformOutcome {
        winners: Seq::from_vec(winners),
        price,
    })
}

/// All positions among so many bids.
fn positions(alloc: Global, count: usize) -> Result<Vec<u32>, NoMemory>
    requires { count ≤ 64 }
    ensures { IfOk result (λ all. all.items ≡ positions count) }
{
    let mut all = Vec::new(alloc);
    for place in 0..count {
        all.push(place as u32 + 1)?;
    }
    Ok(all)
}

/// The positions among so many bids that no winner has.
pub(crate) fn losers(alloc: Global, count: u32, winners: &[u32]) -> Result<Vec<u32>, NoMemory>
    requires { count ≤ 64 }
    ensures { IfOk result (λ all. all.items ≡ LosersOf count winners.now) }
{
    let mut all = Vec::new(alloc);
    for place in 0..count {
        let position = place + 1;
        if !winners.contains(&position) {
            all.push(position)?;
        }
    }
    Ok(all)
}

/// The place among the winners of the one whom all others beat: the last who bids least.
fn weakest(bids: &[u64], winners: &[u32]) -> usize
    requires some { 1 ≤ length winners.now }
    requires positions { All (IsPositionAmong (length bids.now)) winners.now }
    requires ascending { IsAscending winners.now }
    ensures weakest { IsWeakest bids.now winners.now (length winners.now) result }
    ensures inside { result < length winners.now }
{
    let mut place = 0;
    let mut least = bids[winners[0] as usize - 1];
    for i in 1..winners.len() {
        let bid = bids[winners[i] as usize - 1];
        if bid <= least {
            least = bid;
            place = i;
        }
    }
    place
}

/// Of any bids: for each number of units up to theirs there is one outcome with that many winners,
/// and no other.
pub fn one_outcome_for_each_number()
    ensures outcome { (bids : List ℕ) (units : ℕ) → 1 ≤ units → units ≤ length bids
        → (winners : List ℕ) × (price : ℕ) × IsUniformOutcome bids winners price
        × (length winners ≡ units) }
    ensures no_other { (bids winners others : List ℕ) (price other : ℕ)
        → IsUniformOutcome bids winners price
        → IsUniformOutcome bids others other → length winners ≡ length others → (winners ≡ others)
        × (price ≡ other) }
{}
