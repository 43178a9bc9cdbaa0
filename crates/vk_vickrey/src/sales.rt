ghost use Rattle.std.specs.Prelude.{◌≡◌, ◌≤◌, ◌↔◌, List, ℕ, length};
ghost use Rattle.vk_vickrey.specs.Outcomes.{IsVickreyOutcome};
ghost use Rattle.vk_vickrey.specs.Sales.{IsSale, sale_at};
ghost use Rattle.vk_vickrey.specs.declared.sales.Sale.{Sale as SaleValue};
ghost use Rattle.vk_vickrey.specs.declared.sales.Sale.TheVariants.{Sold as SoldTo};

use crate::outcomes::outcome;

/// What comes of bids where the seller names a reserve.
#[derive(Clone, Copy, Debug, PartialEq, Eq)]
pub enum Sale {
    /// The bidder at a position, counted from 1, pays the price.
    Sold { position: u32, price: u64 },
    /// Every bid is below the reserve.
    Unsold,
}

impl Sale {
    /// What a position, counted from 1, and a price tell; where there is no position nothing is
    /// sold.
    pub fn at(position: Option<u32>, price: u64) -> Sale
        ensures { result ≡ sale_at position price }
    {
        match position {
            Some(position) => Sale::Sold { position, price },
            None => Sale::Unsold,
        }
    }
}

/// The sale of 1 to 64 bids: the winner pays the reserve, or the price without one where that is
/// more. Takes no memory.
pub fn sale_of(bids: &[u64], reserve: u64) -> Sale
    requires some { 1 ≤ length bids.now }
    requires most { length bids.now ≤ 64 }
    ensures sale { IsSale bids.now reserve result }
    ensures no_other { (sale : SaleValue) → IsSale bids.now reserve sale → sale ≡ result }
{
    let found = outcome(bids);
    if bids[found.position as usize - 1] < reserve {
        return Sale::Unsold;
    }
    Sale::Sold {
        position: found.position,
        price: found.price.max(reserve),
    }
}

/// Of any bids: without a reserve they are sold at their outcome and at nothing else. With any
/// reserve, where there is a bid there is a sale, and no bids have two.
pub fn sales_extend_outcomes()
    ensures outcome { (bids : List ℕ) (winner price : ℕ) → IsVickreyOutcome bids winner price
        ↔ IsSale bids 0 (SoldTo winner price) }
    ensures sale { (bids : List ℕ) (reserve : ℕ) → 1 ≤ length bids → (sale : SaleValue)
        × IsSale bids reserve sale }
    ensures no_other { (bids : List ℕ) (reserve : ℕ) (sale other : SaleValue)
        → IsSale bids reserve sale → IsSale bids reserve other → sale ≡ other }
{}
