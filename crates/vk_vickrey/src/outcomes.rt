ghost use Rattle.std.specs.Prelude.{◌≡◌, ◌≤◌, ℕ, length};
ghost use Rattle.vk_vickrey.specs.Outcomes.{IsVickreyOutcome};

/// Who wins, and what the winner pays.
#[derive(Clone, Copy, Debug, PartialEq, Eq)]
pub struct VickreyOutcome {
    /// The winner's place among the bids, counted from 1.
    pub position: u32,
    /// The greatest of the other bids, 0 where there is none.
    pub price: u64,
}

/// The outcome of 1 to 64 bids: the first position of the greatest bid, at the greatest of the
/// rest. Takes no memory.
pub fn outcome(bids: &[u64]) -> VickreyOutcome
    requires some { 1 ≤ length bids.now }
    requires most { length bids.now ≤ 64 }
    ensures outcome { IsVickreyOutcome bids.now result.position result.price }
    ensures no_other { (winner price : ℕ) → IsVickreyOutcome bids.now winner price
        → (winner ≡ result.position) × (price ≡ result.price) }
{
    let mut winner = 0;
    let mut best = bids[0];
    let mut price = 0;
    for i in 1..bids.len() {
        let bid = bids[i];
        if best < bid {
            price = best;
            best = bid;
            winner = i;
        } else if price < bid {
            price = bid;
        }
    }
    VickreyOutcome {
        position: winner as u32 + 1,
        price,
    }
}
