// What holds of the values that show a sale, and of the numbers that are published of one.
ghost use Rattle.std.specs.Prelude.{◌≡◌, ◌<◌, ◌≤◌, List, ℕ};
ghost use Rattle.vk_residue.specs.Limits.{IsWidth};
ghost use Rattle.vk_range.specs.Ranged.{ranged_values};
ghost use Rattle.vk_vickrey.specs.declared.sales.Sale.{Sale as SaleValue};
ghost use Rattle.vk_vickrey.specs.declared.sales.Sale.TheVariants.{Sold as SoldTo};
ghost use Rattle.vk_vickrey.specs.VickreyPlans.{IsVickreyCase, IsVickreyClaim, honest_values};
ghost use Rattle.vk_vickrey.specs.ReservePlans.{IsBoardClaim, IsReserveCase, IsWithinReserve, reserve_values, sale_ranges};
ghost use Rattle.vk_vickrey.specs.BoardPlans.{BoardClaim, BoardNumbers, IsBoardCase, board_numbers, board_values};
ghost use Rattle.vk_vickrey.specs.BoardCases.{AreBoardTerms};
ghost use Rattle.vk_vickrey.specs.SaleSelectors.{IsBidPrice, SelectsFirstHolder};

/// Of the values that `fill` answers, of each of the three plans: where the price is to be
/// another's bid, there is a first of the others who bids it, whose selector is 1, and all other
/// selectors are 0. Where it isn't sold above the reserve of version 2 there are no selectors: the
/// bids, their copies and the pairs of the ranges are all.
pub fn first_holders_are_selected()
    ensures vickrey { (seals width position price : ℕ) (bids : List ℕ) → 2 ≤ seals
        → IsVickreyCase seals width position price → IsVickreyClaim seals width position price bids
        → SelectsFirstHolder seals width position price bids
        (honest_values seals width position price bids) }
    ensures reserve { (seals width reserve position price : ℕ) (bids : List ℕ) → reserve < price
        → IsReserveCase seals width reserve (SoldTo position price)
        → IsBoardClaim seals width reserve (SoldTo position price) bids
        → SelectsFirstHolder seals width position price bids
        (reserve_values seals width reserve (SoldTo position price) bids) }
    ensures none { (seals width reserve : ℕ) (sale : SaleValue) (bids : List ℕ)
        → IsWithinReserve reserve sale
        → reserve_values seals width reserve sale bids
        ≡ ranged_values bids (sale_ranges seals width reserve sale) }
    ensures board { (version seals width reserve position price : ℕ) (bids : List ℕ)
        → IsBidPrice (board_numbers version seals width reserve (SoldTo position price)) price
        → IsBoardCase (board_numbers version seals width reserve (SoldTo position price))
        → IsBoardClaim seals width reserve (SoldTo position price) bids
        → SelectsFirstHolder seals width position price bids
        (board_values (board_numbers version seals width reserve (SoldTo position price)) bids) }
    ensures none_of_board { (seals width reserve : ℕ) (sale : SaleValue) (bids : List ℕ)
        → IsWithinReserve reserve sale
        → board_values (board_numbers 2 seals width reserve sale) bids
        ≡ ranged_values bids (sale_ranges seals width reserve sale) }
{}

/// Of any bids that are within the limits of an auction, and of a seller's terms that are: what is
/// published of their sale, or of their outcome without a reserve, is within the limits of a plan.
pub fn sales_are_published_within_limits()
    ensures sale { (n : BoardNumbers) (bids : List ℕ) → AreBoardTerms n → BoardClaim n bids
        → IsBoardCase n }
    ensures outcome { (seals width position price : ℕ) (bids : List ℕ) → 1 ≤ seals → seals ≤ 64
        → IsWidth width → IsVickreyClaim seals width position price bids
        → IsVickreyCase seals width position price }
{}
