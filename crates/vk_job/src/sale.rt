// The sale of an auction's bids, its plan and how large that is, and the values that hold for it.
ghost use Rattle.std.specs.Prelude.{◌≡◌, ◌-◌, ◌≤◌, All, length, map, take, IfOk};
ghost use Rattle.vk_residue.specs.Residue.{IsResidue};
ghost use Rattle.vk_keeper.specs.Auctions.{IsAuction};
ghost use Rattle.vk_vickrey.specs.BoardPlans.{numbers_of};
ghost use Rattle.vk_job.specs.Outcome.{price_in};
ghost use Rattle.vk_job.specs.Jobs.{numbers_in, plan_of, sale_in, values_of, winner_of};

use std::alloc::Global;
use vk_keeper::{Auction, SealRow};
use vk_plan::{Circuit, Plan};
use vk_residue::{NoMemory, Residue};
use vk_vickrey::{BoardPlan, Sale, board_wire_count, sale_of};

/// The sale of the bids under the auction's reserve. Takes no memory.
pub fn sale_in(auction: &Auction) -> Sale
    requires right { IsAuction auction.now }
    requires sealed { 1 ≤ length auction.now.seals }
    ensures { result ≡ sale_in auction.now }
{
    let rows = auction.seals.as_slice();
    let bids = bids_of(rows);
    let sale = sale_of(&bids[..rows.len()], auction.reserve);
    sale
}

/// The bids in the order in which the seals were handed in, and 0 past them.
fn bids_of(rows: &[SealRow]) -> [u64; 64]
    requires { length rows.now ≤ 64 }
    ensures { take (length rows.now) result ≡ map (λ row. row.secret.bid) rows.now }
{
    let mut bids = [0; 64];
    for index in 0..rows.len() {
        bids[index] = rows[index].secret.bid;
    }
    bids
}

/// The seat of the winner, None where nothing is sold.
pub fn winner_of(auction: &Auction, sale: Sale) -> Option<u16>
    requires sealed { 1 ≤ length auction.now.seals }
    requires sale { sale ≡ sale_in auction.now }
    ensures { result ≡ winner_of auction.now }
{
    match sale {
        Sale::Sold { position, .. } => {
            let place = position as usize - 1;
            let winner = &auction.seals.as_slice()[place];
            Some(winner.seal.seat)
        }
        Sale::Unsold => None,
    }
}

/// The price, 0 where nothing is sold.
pub fn price_in(sale: Sale) -> u64
    ensures { result ≡ price_in sale }
{
    match sale {
        Sale::Sold { price, .. } => price,
        Sale::Unsold => 0,
    }
}

/// The circuit that shows the sale.
fn circuit_of(auction: &Auction, sale: Sale) -> BoardPlan
    requires right { IsAuction auction.now }
    requires sealed { 1 ≤ length auction.now.seals }
    requires sale { sale ≡ sale_in auction.now }
    ensures { numbers_of result ≡ numbers_in auction.now }
{
    let seals = auction.seals.len() as u32;
    let circuit = BoardPlan::of(
        auction.version,
        seals,
        auction.width,
        auction.reserve,
        sale,
    ).unwrap();
    circuit
}

/// How many wires each lane has after the inputs, by the sale.
pub fn further_wires(auction: &Auction, sale: Sale) -> u32
    requires right { IsAuction auction.now }
    requires sealed { 1 ≤ length auction.now.seals }
    requires sale { sale ≡ sale_in auction.now }
    ensures wires { result ≡ length (plan_of auction.now).kinds - (plan_of auction.now).inputs }
    ensures few { result ≤ 10311 }
{
    let seals = auction.seals.len() as u32;
    board_wire_count(auction.version, seals, auction.width, auction.reserve, sale) - seals
}

/// Its plan.
#[tactic(auto, unfolding(crate::specs::Jobs::plan_of))]
pub fn plan_of(alloc: Global, auction: &Auction, sale: Sale) -> Result<Plan, NoMemory>
    requires right { IsAuction auction.now }
    requires sealed { 1 ≤ length auction.now.seals }
    requires sale { sale ≡ sale_in auction.now }
    ensures { IfOk result (λ plan. plan ≡ plan_of auction.now) }
{
    let plan = circuit_of(auction, sale).plan(alloc)?;
    Ok(plan)
}

/// The values of all wires.
#[tactic(auto, unfolding(crate::specs::Jobs::values_of))]
pub fn values_of(alloc: Global, auction: &Auction, sale: Sale) -> Result<Vec<Residue>, NoMemory>
    requires right { IsAuction auction.now }
    requires sealed { 1 ≤ length auction.now.seals }
    requires sale { sale ≡ sale_in auction.now }
    ensures { IfOk result (λ values. values.items ≡ values_of auction.now) }
{
    let inputs = inputs_of(alloc, auction.seals.as_slice())?;
    let values = circuit_of(auction, sale).fill(alloc, inputs.as_slice())?;
    Ok(values)
}

/// The bids as residues.
fn inputs_of(alloc: Global, rows: &[SealRow]) -> Result<Vec<Residue>, NoMemory>
    requires { All (λ row. IsResidue row.secret.bid) rows.now }
    ensures { IfOk result (λ inputs. inputs.items ≡ map (λ row. row.secret.bid) rows.now) }
{
    let mut inputs = Vec::new(alloc);
    for row in rows {
        inputs.push(Residue::new(row.secret.bid).unwrap())?;
    }
    Ok(inputs)
}
