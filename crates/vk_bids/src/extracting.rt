// The bids of one lane.
ghost use Rattle.std.specs.Prelude.{◌≡◌, ◌≤◌, length, IfOk, IfErr, IfSome, OnOk, Err, None, false, true};
ghost use Rattle.vk_row.specs.Lanes.{IsAccepted};
ghost use Rattle.vk_board.specs.Reading.{seats_of};
ghost use Rattle.vk_extractor.specs.Clash.{clash_of_lane};
ghost use Rattle.vk_extractor.specs.Refused.{IsRefusalOf};
ghost use Rattle.vk_extractor.specs.declared.lane.LaneErr.TheVariants.{Clash};
ghost use Rattle.vk_bids.specs.Bids.{opened_bid, opened_bids};
ghost use Rattle.vk_bids.specs.Opening.{IsCaseOf, OpensTwice, OpensValues};

use crate::bids::{LaneBids, OpenedBid};
use std::alloc::Global;
use vk_board::SealLines;
use vk_extractor::{LaneErr, extract_lane};
use vk_judge::Statement;
use vk_residue::NoMemory;
use vk_row::LaneCase;
use vk_seq::Seq;
use vk_wire::Shown;

/// The values of the seals in the lane, counted from 1, from what was accepted for bit 0 and what
/// was accepted for bit 1. They open the lane's seals, and are inputs for which the statement's
/// circuit holds.
///
/// Where an entry was opened with two values the answer is the first such entry's two openings,
/// that of bit 0 first.
pub fn extract_bids(
    alloc: Global,
    statement: &Statement,
    lane: u32,
    case: &LaneCase,
    zero: &[Shown],
    one: &[Shown],
) -> Result<LaneBids, LaneErr>
    requires first { 1 ≤ lane }
    requires last { lane ≤ statement.now.lanes }
    requires case { IsCaseOf statement.now lane case.now }
    requires zero { IsAccepted statement.now.plan case.now false zero.now }
    requires one { IsAccepted statement.now.plan case.now true one.now }
    ensures number { IfOk result (λ found. found.number ≡ lane) }
    ensures bids { IfOk result
        (λ found. found.bids ≡ opened_bids (seats_of statement.now.seals) zero.now one.now) }
    ensures opens { IfOk result (λ found. OpensValues statement.now lane found.bids) }
    ensures agree { OnOk result (clash_of_lane case.now zero.now one.now ≡ None) }
    ensures clash { IfSome (clash_of_lane case.now zero.now one.now)
        (λ two. result ≡ Err (Clash two)) }
    ensures refused { IfErr result (λ refused. IsRefusalOf refused case.now zero.now one.now) }
    ensures opened_twice { IfErr result
        (λ refused. OpensTwice refused statement.now.plan case.now) }
{
    // The values of all wires hold for the circuit, and those of the seals are its inputs'.
    let _values = extract_lane(alloc, statement.plan(), case, zero, one)?;
    let bids = bids_of(alloc, statement.seals(), zero, one)?;
    Ok(LaneBids { number: lane, bids })
}

/// The bids of the seals.
fn bids_of(
    alloc: Global,
    seals: &[SealLines],
    zero: &[Shown],
    one: &[Shown],
) -> Result<Seq<OpenedBid>, NoMemory>
    requires zero { length seals.now ≤ length zero.now }
    requires one { length seals.now ≤ length one.now }
    ensures { IfOk result (λ bids. bids ≡ opened_bids (seats_of seals.now) zero.now one.now) }
{
    let mut bids = Vec::new(alloc);
    for (index, seal) in seals.iter().enumerate() {
        if let Some(bid) = bid_of(seal.seat, &zero[index], &one[index]) {
            bids.push(bid)?;
        }
    }
    Ok(Seq::from_vec(bids))
}

/// The bid of the seal of that seat, where both replies show a half.
fn bid_of(seat: u16, zero: &Shown, one: &Shown) -> Option<OpenedBid>
    ensures { result ≡ opened_bid seat zero.now one.now }
{
    match (zero, one) {
        (Shown::Half(first), Shown::Half(second)) => Some(OpenedBid {
            seat,
            bid: first.value.add(second.value),
            first: *first,
            second: *second,
        }),
        _ => None,
    }
}
