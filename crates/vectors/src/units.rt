// Lists of bids for several equal units: the winners and the price of each with the size of the
// plan that shows them.
ghost use Rattle.std.specs.Prelude.{◌≤◌, length};

use crate::sales::put_size;
use std::alloc::Global;
use vk_cases::{Text, Tried, Unreplayed, number_at};
use vk_plan::{Circuit, Plan};
use vk_uniform::{UniformOutcome, UniformPlan, uniform};

/// The winners and the price of the bids, and how many wires and rows the plan has.
pub fn put_units(alloc: Global, text: &mut Text, case: &[u8], bids: &[u64]) -> Tried<()> {
    let units = number_at(case, 1, 64)? as u32;
    if units == 0 || 64 < bids.len() || bids.len() < units as usize {
        return Err(Unreplayed::NoCase);
    }
    let sold = uniform(alloc, bids, units)?;
    put_outcome(text, &sold);
    put_plan(alloc, text, case, bids.len() as u32, &sold)
}

/// The winners' positions with commas between them, and the price.
fn put_outcome(text: &mut Text, sold: &UniformOutcome) {
    let mut mark: &[u8] = b" | ";
    for winner in sold.winners.as_slice() {
        text.put_number(mark, u64::from(*winner));
        mark = b",";
    }
    text.put_number(b" ", sold.price);
}

/// How many wires and rows the plan of so many inputs has, at the width of the case, for these
/// winners and this price.
fn put_plan(
    alloc: Global,
    text: &mut Text,
    case: &[u8],
    inputs: u32,
    sold: &UniformOutcome,
) -> Tried<()> {
    let width = number_at(case, 2, 40)?;
    let mut numbers = Vec::new(alloc);
    put_numbers(&mut numbers, width, sold)?;
    let plan = plan_of(alloc, inputs, numbers.as_slice())?;
    put_size(text, &plan);
    text.put(b"\n");
    Ok(())
}

/// Appends the width, the price and the winners' positions.
fn put_numbers(numbers: &mut Vec<u64>, width: u64, sold: &UniformOutcome) -> Tried<()> {
    numbers.push(width)?;
    numbers.push(sold.price)?;
    for winner in sold.winners.as_slice() {
        numbers.push(u64::from(*winner))?;
    }
    Ok(())
}

/// The plan of so many inputs for these numbers.
fn plan_of(alloc: Global, inputs: u32, numbers: &[u64]) -> Tried<Plan> {
    let Some(circuit) = UniformPlan::from_numbers(alloc, inputs, numbers)? else {
        return Err(Unreplayed::NoCase);
    };
    let plan = circuit.plan(alloc)?;
    Ok(plan)
}
