// What is published of an outcome: the price, and the winner's place among the seals.
ghost use Rattle.std.specs.Prelude.{◌≡◌, ◌≤◌, length, IfSome};
ghost use Rattle.vk_board.specs.Values.{IsHead};
ghost use Rattle.vk_board.specs.Published.{sold_price_stands, price_stands, position_of, placed};

use crate::board::{Head, SealLines};
use vk_residue::Residue;

/// Whether the reserve is below 2^width, and the price may stand beside it. What is sold is sold
/// below 2^width and not below the reserve, by one bidder alone at the reserve; what isn't has a
/// reserve and no price. Version 1 has the reserve 0.
pub fn price_stands(head: &Head) -> bool
    requires { IsHead head.now }
    ensures { result ≡ price_stands head.now }
{
    let limit = Residue::pow2(head.width).get();
    let stands = match head.winner {
        Some(_) => sold_price_stands(head, limit),
        None => head.reserve != 0 && head.price == 0,
    };
    head.reserve < limit && stands
}

/// Whether something may be sold at the price, which has to be below the limit.
fn sold_price_stands(head: &Head, limit: u64) -> bool
    ensures { result ≡ sold_price_stands head.now limit }
{
    head.price < limit
        && head.reserve <= head.price
        && (head.seals != 1 || head.price == head.reserve)
}

/// The place, from 1, of the first seal with that seat. None where no seal has it.
pub fn position_of(seat: u16, seals: &[SealLines]) -> Option<u32>
    requires { length seals.now ≤ 64 }
    ensures place { result ≡ position_of seat seals.now }
    ensures within { IfSome result (λ position. (1 ≤ position) × (position ≤ length seals.now)) }
{
    for index in 0..seals.len() {
        if seals[index].seat == seat {
            return Some(index as u32 + 1);
        }
    }
    None
}

/// The winner's place among the seals, from 1; no place where nothing is sold. None where a winner
/// is named and no seal has that seat.
pub fn place_of_winner(winner: Option<u16>, seals: &[SealLines]) -> Option<Option<u32>>
    requires { length seals.now ≤ 64 }
    ensures { result ≡ placed winner seals.now }
{
    match winner {
        Some(seat) => Some(Some(position_of(seat, seals)?)),
        None => Some(None),
    }
}
