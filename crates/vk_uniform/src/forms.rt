// The forms over the copies of the bids that are of the width.
ghost use Rattle.std.specs.Prelude.{◌≡◌, ◌+◌, ◌≤◌, ◌++◌, All, map, flat_map, IfOk, OnOk};
ghost use Rattle.vk_uniform.specs.Outcomes.{IsPositionAmong};
ghost use Rattle.vk_uniform.specs.UniformPlans.{copy_at as CopyAt, bid_forms, win_form, price_form};

use std::alloc::Global;
use vk_plan::Form;
use vk_range::{difference, one_term};
use vk_residue::{NoMemory, Residue};

/// The wire of the copy of the bid at a position.
pub(crate) fn copy_at(inputs: u32, position: u32) -> u32
    requires few { inputs ≤ 64 }
    requires position { IsPositionAmong inputs position }
    ensures { result ≡ CopyAt inputs position }
{
    inputs + (position - 1)
}

/// The wires of the copies of the bids at these positions.
pub(crate) fn copies_at(alloc: Global, inputs: u32, positions: &[u32]) -> Result<Vec<u32>, NoMemory>
    requires few { inputs ≤ 64 }
    requires positions { All (IsPositionAmong inputs) positions.now }
    ensures { IfOk result (λ wires. wires.items ≡ map (CopyAt inputs) positions.now) }
{
    let mut wires = Vec::new(alloc);
    for &position in positions {
        wires.push(copy_at(inputs, position))?;
    }
    Ok(wires)
}

/// The copy of each bid.
pub(crate) fn push_bids(alloc: Global, inputs: u32, forms: &mut Vec<Form>) -> Result<(), NoMemory>
    requires few { inputs ≤ 64 }
    ensures { OnOk result (forms.new.items ≡ forms.old.items ++ bid_forms inputs) }
{
    for place in 0..inputs {
        let form = one_term(alloc, inputs + place, Residue::ONE, Residue::ZERO)?;
        forms.push(form)?;
    }
    Ok(())
}

/// One winner's copy less each loser's, less 1 where the loser stands before.
fn push_wins_of(
    alloc: Global,
    inputs: u32,
    winner: u32,
    losers: &[u32],
    forms: &mut Vec<Form>,
) -> Result<(), NoMemory>
    requires few { inputs ≤ 64 }
    requires winner { IsPositionAmong inputs winner }
    requires losers { All (IsPositionAmong inputs) losers.now }
    ensures { OnOk result (forms.new.items
        ≡ forms.old.items ++ map (win_form inputs winner) losers.now) }
{
    for &loser in losers {
        let strict = loser < winner;
        let form = difference(
            alloc,
            copy_at(inputs, winner),
            copy_at(inputs, loser),
            strict,
        )?;
        forms.push(form)?;
    }
    Ok(())
}

/// Each winner's copy less each loser's, less 1 where the loser stands before.
pub(crate) fn push_wins(
    alloc: Global,
    inputs: u32,
    winners: &[u32],
    losers: &[u32],
    forms: &mut Vec<Form>,
) -> Result<(), NoMemory>
    requires few { inputs ≤ 64 }
    requires winners { All (IsPositionAmong inputs) winners.now }
    requires losers { All (IsPositionAmong inputs) losers.now }
    ensures { OnOk result
        (forms.new.items ≡ forms.old.items
        ++ flat_map (λ winner. map (win_form inputs winner) losers.now) winners.now) }
{
    for &winner in winners {
        push_wins_of(alloc, inputs, winner, losers, forms)?;
    }
    Ok(())
}

/// The price less each loser's copy.
pub(crate) fn push_prices(
    alloc: Global,
    inputs: u32,
    losers: &[u32],
    price: Residue,
    forms: &mut Vec<Form>,
) -> Result<(), NoMemory>
    requires few { inputs ≤ 64 }
    requires losers { All (IsPositionAmong inputs) losers.now }
    ensures { OnOk result (forms.new.items
        ≡ forms.old.items ++ map (price_form inputs price) losers.now) }
{
    for &loser in losers {
        let form = one_term(alloc, copy_at(inputs, loser), Residue::ONE.neg(), price)?;
        forms.push(form)?;
    }
    Ok(())
}
