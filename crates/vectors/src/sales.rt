// Lists of bids under a reserve: the sale of each with the size of the plan that shows it, and the
// rows where another sale is published.
ghost use Rattle.std.specs.Prelude.{◌≡◌, ◌<◌, ◌≤◌, length};

use std::alloc::Global;
use vk_cases::{Text, Tried, Unreplayed, number_at, word_at};
use vk_plan::{Circuit, Plan};
use vk_residue::Residue;
use vk_vickrey::{BoardPlan, Sale, sale_of};

/// The sale of the bids, and how many wires and rows its plan has.
pub fn put_sale(alloc: Global, text: &mut Text, case: &[u8], bids: &[u64]) -> Tried<()> {
    if bids.is_empty() || 64 < bids.len() {
        return Err(Unreplayed::NoCase);
    }
    let reserve = number_at(case, 1, u64::MAX)?;
    let sale = sale_of(bids, reserve);
    match sale {
        Sale::Unsold => text.put(b" | unsold"),
        Sale::Sold { position, price } => {
            text.put_number(b" | ", u64::from(position));
            text.put_number(b" ", price);
        }
    }
    put_size(text, &plan_of(alloc, case, bids.len(), sale)?);
    text.put(b"\n");
    if only_sale(bids, reserve) != Some(sale) {
        text.put_line(b"the definition gives another sale");
    }
    Ok(())
}

/// How many wires and rows the case's plan has, and the value of each row where the inputs and
/// their copies are the bids, and all other wires are 0.
pub fn put_rows(alloc: Global, text: &mut Text, case: &[u8], bids: &[u64]) -> Tried<()> {
    let plan = plan_of(alloc, case, bids.len(), sale_in(case)?)?;
    put_size(text, &plan);
    put_plan(alloc, text, &plan, bids)
}

/// The value of each row at these bids.
fn put_plan(alloc: Global, text: &mut Text, plan: &Plan, bids: &[u64]) -> Tried<()> {
    let values = values_of(alloc, bids, plan.wires())?;
    put_values(text, plan, values.as_slice())
}

/// The sale that a case publishes: `unsold`, or `POSITION PRICE`.
fn sale_in(case: &[u8]) -> Tried<Sale> {
    if word_at(case, 3)? == b"unsold".as_slice() {
        return Ok(Sale::Unsold);
    }
    let position = number_at(case, 3, 64)? as u32;
    let price = number_at(case, 4, u64::MAX)?;
    Ok(Sale::Sold { position, price })
}

/// The plan of a board with so many seals, the reserve and the width of the case, and this sale.
fn plan_of(alloc: Global, case: &[u8], seals: usize, sale: Sale) -> Tried<Plan> {
    if 64 < seals {
        return Err(Unreplayed::NoCase);
    }
    let reserve = number_at(case, 1, u64::MAX)?;
    let width = number_at(case, 2, 40)?;
    let Some(circuit) = BoardPlan::of(2, seals as u32, width as u32, reserve, sale) else {
        return Err(Unreplayed::NoCase);
    };
    let plan = circuit.plan(alloc)?;
    Ok(plan)
}

/// How many wires and rows the plan has.
pub fn put_size(text: &mut Text, plan: &Plan) {
    text.put_number(b" | ", u64::from(plan.wires()));
    text.put_number(b" ", u64::from(plan.rows()));
}

/// The bids twice, and 0 for the wires behind them.
pub fn values_of(alloc: Global, bids: &[u64], wires: u32) -> Tried<Vec<Residue>> {
    let mut values = Vec::new(alloc);
    for wire in 0..wires as usize {
        match Residue::new(number_of(bids, wire)) {
            Some(value) => values.push(value)?,
            None => return Err(Unreplayed::NoCase),
        }
    }
    Ok(values)
}

/// The bid that the wire or the one that it copies has, 0 for a wire behind these.
fn number_of(bids: &[u64], wire: usize) -> u64 {
    let count = bids.len();
    if wire < count {
        bids[wire]
    } else if wire - count < count {
        bids[wire - count]
    } else {
        0
    }
}

/// The value of each row, behind a space, at the end of a line.
fn put_values(text: &mut Text, plan: &Plan, values: &[Residue]) -> Tried<()> {
    if values.len() != plan.wires() as usize {
        return Err(Unreplayed::NoCase);
    }
    text.put(b" |");
    for row in 0..plan.rows() {
        text.put_number(b" ", plan.row(row).value(values).get());
    }
    text.put(b"\n");
    Ok(())
}

/// The only one of all sales that comes of the bids by what a sale is; each of them is tried. None
/// where there is none or more than one.
fn only_sale(bids: &[u64], reserve: u64) -> Option<Sale> {
    let mut found = if is_unsold(bids, reserve) {
        Some(Sale::Unsold)
    } else {
        None
    };
    for position in 1..65 {
        if !is_only_at(bids, reserve, position, &mut found) {
            return None;
        }
    }
    found
}

/// Whether every bid is below the reserve.
fn is_unsold(bids: &[u64], reserve: u64) -> bool {
    for bid in bids {
        if reserve <= *bid {
            return false;
        }
    }
    true
}

/// Whether all sales to that position, at each bid and at the reserve, are the one that was found
/// before, if there was one; then the one that is found.
fn is_only_at(bids: &[u64], reserve: u64, position: u32, found: &mut Option<Sale>) -> bool {
    for place in 0..bids.len() + 1 {
        let price = if place < bids.len() {
            bids[place]
        } else {
            reserve
        };
        if is_sold(bids, reserve, position, price) {
            let sale = Some(Sale::Sold { position, price });
            if found.is_some() && *found != sale {
                return false;
            }
            *found = sale;
        }
    }
    true
}

/// Whether the bids are sold so: the winner is the first of those who bid most, and bids the
/// reserve at least. The price is the reserve or another's bid, and none of these is above it.
fn is_sold(bids: &[u64], reserve: u64, position: u32, price: u64) -> bool {
    let mut wins = false;
    let mut is_due = price == reserve;
    for place in 0..bids.len() {
        let bid = bids[place];
        if place + 1 == position as usize {
            wins = reserve <= bid && is_first_of_most(bids, place);
        } else {
            is_due = is_due || bid == price;
            if price < bid {
                return false;
            }
        }
    }
    wins && is_due && reserve <= price
}

/// Whether no bid is above the one at that place, from 0, and none before it is equal to it.
fn is_first_of_most(bids: &[u64], winner: usize) -> bool
    requires { winner < length bids.now }
{
    for place in 0..bids.len() {
        if bids[winner] < bids[place] || bids[winner] == bids[place] && place < winner {
            return false;
        }
    }
    true
}
