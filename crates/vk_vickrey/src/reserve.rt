ghost use Rattle.std.specs.Prelude.{◌≡◌, ◌≤◌, ◌↔◌, IsSome, IfSome, IsTrue};
ghost use Rattle.vk_vickrey.specs.ReservePlans.{IsReserveCase, IsReserveCase-prop, IsSaleCase};

use crate::sales::Sale;
use vk_residue::Residue;

/// The plan that shows, of hidden bids, that a published sale is theirs under a published reserve.
#[derive(Clone, Copy, Debug)]
pub struct ReservePlan {
    /// How many bids there are, 1 to 64.
    pub seals: u32,
    /// Each bid is below 2^width, for a width of 1 to 40.
    pub width: u32,
    /// What the winner has to bid at least, below 2^width.
    pub reserve: u64,
    /// Nothing stays unsold where the reserve is 0. The winner's place is one of the bids; the
    /// price is below 2^width and the reserve at least, and it is the reserve where there is one
    /// bid.
    pub sale: Sale,
    pub ghost in_limits: { IsReserveCase seals width reserve sale } by { IsReserveCase-prop seals width reserve sale },
}

impl ReservePlan {
    /// None where a number is not within its limits. Takes no memory.
    pub fn new(seals: u32, width: u32, reserve: u64, sale: Sale) -> Option<ReservePlan>
        ensures admitted { IsSome result ↔ IsReserveCase seals width reserve sale }
        ensures numbers { IfSome result (λ plan.
            (plan.seals ≡ seals) × (plan.width ≡ width) × (plan.reserve ≡ reserve)
            × (plan.sale ≡ sale)) }
    {
        if seals == 0 || seals > 64 || width == 0 || width > 40 {
            return None;
        }
        if reserve >= Residue::pow2(width).get() || !may_be_published(seals, width, reserve, sale) {
            return None;
        }
        Some(ReservePlan {
            seals,
            width,
            reserve,
            sale,
        })
    }
}

/// The sale is within its limits.
fn may_be_published(seals: u32, width: u32, reserve: u64, sale: Sale) -> bool
    requires width { width ≤ 40 }
    ensures { IsTrue result ↔ IsSaleCase seals width reserve sale }
{
    match sale {
        Sale::Sold { position, price } => {
            if position == 0 || position > seals {
                return false;
            }
            if price >= Residue::pow2(width).get() || price < reserve {
                return false;
            }
            seals != 1 || price == reserve
        }
        Sale::Unsold => reserve != 0,
    }
}
