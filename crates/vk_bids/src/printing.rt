// What is printed of the bids that two replies give.
ghost use Rattle.std.specs.Prelude.{◌≡◌, ◌++◌, IfOk, OnOk, string_bytes};
ghost use Rattle.std.specs.List.{flat_map};
ghost use Rattle.vk_bids.specs.Texts.{agreement, agreements_text, bid_in, extraction_text, first_bid, has_one_bid, opened_line, opening_text, sale_line, sold_line};
ghost use Rattle.vk_bids.specs.declared.bids.LaneBids.{LaneBids};

use crate::bids::{LaneBids, OpenedBid};
use crate::extraction::Extracted;
use std::alloc::Global;
use vk_board::{Head, SealLines};
use vk_commit::Opening;
use vk_residue::{NoMemory, Residue};

/// Appends the lines of the lanes' values, each of them behind this word.
pub fn add_lanes(
    alloc: Global,
    word: &str,
    lanes: &[LaneBids],
    lines: &mut Vec<String>,
) -> Result<(), NoMemory>
    ensures { OnOk result (flat_map string_bytes lines.new.items
        ≡ flat_map string_bytes lines.old.items
        ++ flat_map (λ (lane : LaneBids). flat_map (opened_line word.now lane.number) lane.bids)
        lanes.now) }
{
    for lane in lanes {
        add_lane(alloc, word, lane, lines)?;
    }
    Ok(())
}

/// Appends the lines of a lane's values, one for each seal in order.
fn add_lane(
    alloc: Global,
    word: &str,
    lane: &LaneBids,
    lines: &mut Vec<String>,
) -> Result<(), NoMemory>
    ensures { OnOk result (flat_map string_bytes lines.new.items
        ≡ flat_map string_bytes lines.old.items
        ++ flat_map (opened_line word.now lane.now.number) lane.now.bids) }
{
    for value in lane.bids.as_slice() {
        let line = opened_line(alloc, word, lane.number, value)?;
        lines.push(line)?;
    }
    Ok(())
}

/// The line of one value of the lane of that number, behind the word.
fn opened_line(
    alloc: Global,
    word: &str,
    number: u32,
    value: &OpenedBid,
) -> Result<String, NoMemory>
    ensures { IfOk result (λ line. string_bytes line ≡ opened_line word.now number value.now) }
{
    let seat = value.seat;
    let sum = value.bid.get();
    let first = opening_fields(alloc, &value.first)?;
    let second = opening_fields(alloc, &value.second)?;
    let line = format!(in alloc; "lane {number} seat {seat} {word} {sum} u {first} v {second}\n")?;
    Ok(line)
}

/// The lines of an extraction: the bids of each lane, the sale that the board publishes, of each
/// seal whether its bids are equal in all lanes, and the end.
pub fn extraction_lines(alloc: Global, found: &Extracted) -> Result<Vec<String>, NoMemory>
    ensures { IfOk result (λ lines. flat_map string_bytes lines.items ≡ extraction_text found.now) }
{
    let mut lines = Vec::new(alloc);
    let lanes = found.lanes.as_slice();
    add_lanes(alloc, "bid", lanes, &mut lines)?;
    let line = sale_line(alloc, &found.front.head)?;
    lines.push(line)?;
    add_agreements(alloc, found.front.seals.as_slice(), lanes, &mut lines)?;
    let end = String::from_str(alloc, "end\n")?;
    lines.push(end)?;
    Ok(lines)
}

/// The line of the sale that a board publishes: what is sold, or that nothing is.
pub fn sale_line(alloc: Global, head: &Head) -> Result<String, NoMemory>
    ensures { IfOk result (λ line. string_bytes line ≡ sale_line head.now) }
{
    match head.winner {
        Some(seat) => {
            let line = sold_line(alloc, head, seat)?;
            Ok(line)
        }
        None => {
            let reserve = head.reserve;
            let line = format!(in alloc; "unsold reserve {reserve}\n")?;
            Ok(line)
        }
    }
}

/// The line of what is sold: the winner and the price, and the reserve, which version 2 names.
fn sold_line(alloc: Global, head: &Head, seat: u16) -> Result<String, NoMemory>
    ensures { IfOk result (λ line. string_bytes line ≡ sold_line head.now seat) }
{
    let price = head.price;
    let reserve = head.reserve;
    if head.version == 2 {
        let line = format!(in alloc; "winner {seat} price {price} reserve {reserve}\n")?;
        return Ok(line);
    }
    let line = format!(in alloc; "winner {seat} price {price}\n")?;
    Ok(line)
}

/// Appends a line for each seal: whether its values are equal in all lanes.
pub fn add_agreements(
    alloc: Global,
    seals: &[SealLines],
    lanes: &[LaneBids],
    lines: &mut Vec<String>,
) -> Result<(), NoMemory>
    ensures { OnOk result (flat_map string_bytes lines.new.items
        ≡ flat_map string_bytes lines.old.items ++ agreements_text 0 seals.now lanes.now) }
{
    for (index, seal) in seals.iter().enumerate() {
        let seat = seal.seat;
        let agreement = agreement(index, lanes);
        let line = format!(in alloc; "seat {seat} {agreement}\n")?;
        lines.push(line)?;
    }
    Ok(())
}

/// The word for whether the bids of the seal at that index are equal in all lanes.
fn agreement(index: usize, lanes: &[LaneBids]) -> &'static str
    ensures { result.now ≡ agreement (has_one_bid index lanes.now) }
{
    if has_one_bid(index, lanes) {
        "same"
    } else {
        "differs"
    }
}

/// Whether the bids of the seal at that index are equal in all lanes.
pub fn has_one_bid(index: usize, lanes: &[LaneBids]) -> bool
    ensures { result ≡ has_one_bid index lanes.now }
{
    let bid = first_bid(index, lanes);
    lanes.iter().all(|lane| bid_in(index, lane) == bid)
}

/// The bid of the seal at that index in the first lane, or 0 where there is none.
fn first_bid(index: usize, lanes: &[LaneBids]) -> Residue
    ensures { result ≡ first_bid index lanes.now }
{
    match lanes {
        [] => Residue::ZERO,
        [first, ..] => bid_in(index, first),
    }
}

/// The bid of the seal at that index in the lane, or 0 where there is none.
fn bid_in(index: usize, lane: &LaneBids) -> Residue
    ensures { result ≡ bid_in index lane.now }
{
    match lane.bids.as_slice().get(index) {
        Some(bid) => bid.bid,
        None => Residue::ZERO,
    }
}

/// The key and the value of an opening.
#[tactic(auto, unfolding(crate::specs::Texts::opening_text))]
fn opening_fields(alloc: Global, opening: &Opening) -> Result<String, NoMemory>
    ensures { IfOk result (λ text. string_bytes text ≡ opening_text opening.now) }
{
    let key = hex::encode(alloc, opening.key.as_slice())?;
    let value = opening.value.get();
    let text = format!(in alloc; "{key} {value}")?;
    Ok(text)
}
