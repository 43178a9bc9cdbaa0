// The forms over the copies of the bids that are of the width.
ghost use Rattle.std.specs.Prelude.{◌≡◌, ◌+◌, ◌-◌, ◌<◌, ◌≤◌, ◌^◌, ◌++◌, ◌∷◌, [], IfOk, OnOk};
ghost use Rattle.vk_range.specs.Others.{other as OtherPlace};
ghost use Rattle.vk_range.specs.Ranged.{ranges_of};
ghost use Rattle.vk_range.specs.Sets.{listed};
ghost use Rattle.vk_vickrey.specs.ReservePlans.{below_form, reach_form};
ghost use Rattle.vk_vickrey.specs.VickreyPlans.{bid_form, win_form, price_form, vickrey_forms};

use std::alloc::Global;
use vk_plan::Form;
use vk_range::{Ranges, difference, one_term, other};
use vk_residue::{NoMemory, Residue};
use vk_seq::Seq;

/// The wire of the copy of the bid at the k-th place other than the winner's.
#[tactic(auto, using(vk_range::specs::Others::other_within))]
pub(crate) fn other_copy(seals: u32, winner: u32, k: u32) -> u32
    requires few { seals ≤ 64 }
    requires winner { winner < seals }
    requires place { k < seals - 1 }
    ensures { result ≡ seals + OtherPlace winner k }
{
    seals + other(winner, k)
}

/// The copy of each bid.
pub(crate) fn push_bids(alloc: Global, seals: u32, forms: &mut Vec<Form>) -> Result<(), NoMemory>
    requires few { seals ≤ 64 }
    ensures { OnOk result (forms.new.items ≡ forms.old.items ++ listed (bid_form seals) seals) }
{
    for j in 0..seals {
        let form = one_term(alloc, seals + j, Residue::ONE, Residue::ZERO)?;
        forms.push(form)?;
    }
    Ok(())
}

/// The winner's copy less each other, less 1 where the other stands before.
fn push_wins(alloc: Global, seals: u32, winner: u32, forms: &mut Vec<Form>) -> Result<(), NoMemory>
    requires few { seals ≤ 64 }
    requires winner { winner < seals }
    ensures { OnOk result (forms.new.items
        ≡ forms.old.items ++ listed (win_form seals winner) (seals - 1)) }
{
    for k in 0..seals - 1 {
        let strict = k < winner;
        let form = difference(alloc, seals + winner, other_copy(seals, winner, k), strict)?;
        forms.push(form)?;
    }
    Ok(())
}

/// The price less each other copy.
fn push_prices(
    alloc: Global,
    seals: u32,
    winner: u32,
    price: Residue,
    forms: &mut Vec<Form>,
) -> Result<(), NoMemory>
    requires few { seals ≤ 64 }
    requires winner { winner < seals }
    ensures { OnOk result (forms.new.items
        ≡ forms.old.items ++ listed (price_form seals winner price) (seals - 1)) }
{
    for k in 0..seals - 1 {
        let minus = Residue::ONE.neg();
        let form = one_term(alloc, other_copy(seals, winner, k), minus, price)?;
        forms.push(form)?;
    }
    Ok(())
}

/// That the bids are of the width, that the winner's is above the others, and that none of the
/// others is above the price.
pub(crate) fn vickrey_forms(
    alloc: Global,
    seals: u32,
    winner: u32,
    price: Residue,
) -> Result<Vec<Form>, NoMemory>
    requires few { seals ≤ 64 }
    requires winner { winner < seals }
    ensures { IfOk result (λ forms. forms.items ≡ vickrey_forms seals winner price) }
{
    let mut forms = Vec::new(alloc);
    push_bids(alloc, seals, &mut forms)?;
    push_wins(alloc, seals, winner, &mut forms)?;
    push_prices(alloc, seals, winner, price, &mut forms)?;
    Ok(forms)
}

/// Each form is of the width.
pub(crate) fn of_width(forms: Vec<Form>, width: u32) -> Ranges
    ensures { result ≡ ranges_of forms.items width }
{
    Ranges {
        forms: Seq::from_vec(forms),
        width,
    }
}

/// That the bids are of the width, and that none is above the limit.
pub(crate) fn unsold_forms(alloc: Global, seals: u32, limit: Residue) -> Result<Vec<Form>, NoMemory>
    requires few { seals ≤ 64 }
    ensures { IfOk result (λ forms. forms.items
        ≡ listed (bid_form seals) seals ++ listed (below_form seals limit) seals) }
{
    let mut forms = Vec::new(alloc);
    push_bids(alloc, seals, &mut forms)?;
    for j in 0..seals {
        let form = one_term(alloc, seals + j, Residue::ONE.neg(), limit)?;
        forms.push(form)?;
    }
    Ok(forms)
}

/// What is shown of a winner, with the reserve in the place of the price, and that the winner's bid
/// reaches it.
pub(crate) fn reserve_forms(
    alloc: Global,
    seals: u32,
    winner: u32,
    reserve: Residue,
) -> Result<Vec<Form>, NoMemory>
    requires few { seals ≤ 64 }
    requires winner { winner < seals }
    ensures { IfOk result (λ forms. forms.items
        ≡ vickrey_forms seals winner reserve ++ reach_form seals winner reserve ∷ []) }
{
    let mut forms = vickrey_forms(alloc, seals, winner, reserve)?;
    let reach = one_term(alloc, seals + winner, Residue::ONE, reserve.neg())?;
    forms.push(reach)?;
    Ok(forms)
}

/// The number as a residue, for a number of at most 40 bits.
pub(crate) fn residue_of(number: u64, width: u32) -> Residue
    requires width { width ≤ 40 }
    requires within { number < 2 ^ width }
    ensures { result ≡ number }
{
    Residue::new(number).unwrap_or(Residue::ZERO)
}
