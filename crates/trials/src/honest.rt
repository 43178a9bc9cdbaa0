// An honest auction or claim by the library's own parts, as files: what is published, three
// challenges, and the replies to them.
ghost use Rattle.std.specs.Prelude.{◌≡◌, ◌<◌, ◌≤◌, ◌^◌, All, IfOk, IfSome, length};
ghost use Rattle.vk_plan.specs.Plans.{Holds};

use crate::asked::{ALL, Asked};
use crate::bench::{Sizes, seat_at};
use std::alloc::Global;
use vk_board::{Head, SealLines, head_text, lane_text, seal_lines_text};
use vk_cases::{Tried, Unreplayed};
use vk_dice::ChaChaWords;
use vk_io::{PieceShelf, Shelf};
use vk_plan::{Circuit, Plan};
use vk_prover::{LaneTape, answer_lane, draw_tape, make_lane};
use vk_reply::{Challenge, challenge_text, reply_head_text, reply_lane_text};
use vk_residue::{NoMemory, Residue};
use vk_seal::{Secret, make_seal};
use vk_seq::Seq;
use vk_vickrey::{BoardPlan, Sale, sale_of};
use vk_wire::WireTape;

/// The id of each auction on trial.
pub const ID: [u8; 16] = [0, 1, 2, 3, 4, 5, 6, 7, 8, 9, 10, 11, 12, 13, 14, 15];

const AUCTIONEER: [u8; 32] = [0xa5; 32];

const BIDDERS: [u8; 32] = [0x5a; 32];

/// How an auction is held.
#[derive(Clone, Copy)]
pub struct Terms {
    /// The version of the board.
    pub version: u32,
    pub width: u32,
    pub lanes: u16,
    /// 0 with version 1.
    pub reserve: u64,
}

/// The text before the first seal, what is sealed, and how.
#[derive(Clone, Copy)]
pub struct Sealing<'a> {
    pub front: &'a [u8],
    pub bids: &'a [u64],
    pub terms: Terms,
}

/// What a bidder keeps, and what is published of it.
#[derive(Drop)]
struct SealedBid {
    secret: Secret,
    lines: SealLines,
}

// What follows borrows what it writes from, and the shelf: what an error drops takes seconds to
// prove.

/// Writes the auction of these bids, where they and the terms are within the limits.
pub fn write_auction(
    alloc: Global,
    shelf: &mut PieceShelf,
    bids: &[u64],
    terms: Terms,
) -> Tried<Sizes> {
    if bids.is_empty() || 64 < bids.len() || 40 < terms.width {
        return Err(Unreplayed::NoCase);
    }
    let (plan, values) = plan_of_bids(alloc, bids, terms)?;
    let written = write_board(alloc, shelf, bids, terms, &plan, values.as_slice());
    written
}

/// Writes it. The values hold for the plan.
fn write_board(
    alloc: Global,
    shelf: &mut PieceShelf,
    bids: &[u64],
    terms: Terms,
    plan: &Plan,
    values: &[Residue],
) -> Tried<Sizes>
    requires some { 1 ≤ length bids.now }
    requires most { length bids.now ≤ 64 }
    requires values { Holds plan.now values.now }
{
    let head = head_of(terms, plan.inputs(), sale_of(bids, terms.reserve));
    let text = head_text(alloc, &head)?;
    let sealing = Sealing {
        front: text.as_slice(),
        bids,
        terms,
    };
    let written = write_files(alloc, shelf, &sealing, plan, values);
    written
}

/// Writes the files behind that front, where the lanes are of that plan. The values hold for it.
pub fn write_files(
    alloc: Global,
    shelf: &mut PieceShelf,
    sealing: &Sealing<'_>,
    plan: &Plan,
    values: &[Residue],
) -> Tried<Sizes>
    requires { Holds plan.now values.now }
{
    let mut sealed = Vec::new(alloc);
    let written = write_sealed(alloc, shelf, sealing, &mut sealed, plan, values);
    written
}

/// Seals the bids, and writes the files. The values hold for the plan.
fn write_sealed(
    alloc: Global,
    shelf: &mut PieceShelf,
    sealing: &Sealing<'_>,
    sealed: &mut Vec<SealedBid>,
    plan: &Plan,
    values: &[Residue],
) -> Tried<Sizes>
    requires { Holds plan.now values.now }
{
    let lanes = sealing.terms.lanes;
    push_sealed(alloc, sealed, sealing.bids, sealing.terms)?;
    write_front(alloc, shelf, sealing.front, sealed.as_slice())?;
    for asked in &ALL {
        write_challenge(alloc, shelf, *asked, lanes)?;
        write_reply_head(alloc, shelf, *asked, lanes)?;
    }
    write_lanes(alloc, shelf, plan, values, sealed.as_slice(), lanes)?;
    end_files(shelf)?;
    Ok(Sizes {
        wires: plan.wires(),
        rows: plan.rows(),
    })
}

/// Writes the board's lines before its first lane.
fn write_front(
    alloc: Global,
    shelf: &mut PieceShelf,
    front: &[u8],
    sealed: &[SealedBid],
) -> Tried<()> {
    begin_file(shelf, "board", front)?;
    for bid in sealed {
        let text = seal_lines_text(alloc, &bid.lines)?;
        shelf.append("board", text.as_slice())?;
    }
    Ok(())
}

/// Writes a file that begins with this text.
fn begin_file(shelf: &mut PieceShelf, name: &str, text: &[u8]) -> Tried<()> {
    shelf.create(name)?;
    shelf.append(name, text)?;
    Ok(())
}

/// Writes a challenge to so many lanes.
fn write_challenge(alloc: Global, shelf: &mut PieceShelf, asked: Asked, lanes: u16) -> Tried<()> {
    let text = asked_text(alloc, asked, lanes)?;
    let written = begin_file(shelf, asked.name(), text.as_slice());
    written
}

/// The text of a challenge to so many lanes.
fn asked_text(alloc: Global, asked: Asked, lanes: u16) -> Result<Vec<u8>, NoMemory> {
    let mut challenge = Challenge {
        bits: Seq::new(alloc),
    };
    push_bits(&mut challenge.bits, asked, lanes)?;
    let text = challenge_text(alloc, &challenge);
    text
}

fn push_bits(bits: &mut Seq<bool>, asked: Asked, lanes: u16) -> Result<(), NoMemory> {
    for lane in 1..=lanes {
        bits.push(asked.bit(lane, lanes))?;
    }
    Ok(())
}

/// Writes what stands in a reply before its first lane.
fn write_reply_head(alloc: Global, shelf: &mut PieceShelf, asked: Asked, lanes: u16) -> Tried<()> {
    let text = reply_head_text(alloc, u32::from(lanes))?;
    let written = begin_file(shelf, asked.reply(), text.as_slice());
    written
}

/// Writes the last line of the board, and that of each reply.
fn end_files(shelf: &mut PieceShelf) -> Tried<()> {
    shelf.append("board", b"end\n")?;
    for asked in &ALL {
        shelf.append(asked.reply(), b"end\n")?;
    }
    Ok(())
}

/// Makes that many lanes, and writes them. The values hold for the plan.
fn write_lanes(
    alloc: Global,
    shelf: &mut PieceShelf,
    plan: &Plan,
    values: &[Residue],
    sealed: &[SealedBid],
    lanes: u16,
) -> Tried<()>
    requires { Holds plan.now values.now }
{
    for lane in 1..=lanes {
        write_lane(alloc, shelf, plan, values, sealed, lane, lanes)?;
    }
    Ok(())
}

/// Makes a lane, from 1, and writes it. The values hold for the plan.
fn write_lane(
    alloc: Global,
    shelf: &mut PieceShelf,
    plan: &Plan,
    values: &[Residue],
    sealed: &[SealedBid],
    lane: u16,
    lanes: u16,
) -> Tried<()>
    requires { Holds plan.now values.now }
{
    let tape = lane_tape(alloc, plan, sealed, lane)?;
    let written = write_taped(alloc, shelf, plan, values, &tape, lane, lanes);
    written
}

/// The same with what is drawn for it: what is published of it, and what is shown of it to each
/// reply.
fn write_taped(
    alloc: Global,
    shelf: &mut PieceShelf,
    plan: &Plan,
    values: &[Residue],
    tape: &LaneTape,
    lane: u16,
    lanes: u16,
) -> Tried<()>
    requires holds { Holds plan.now values.now }
    requires one_each { length tape.now.wires ≡ length plan.now.kinds }
{
    let lines = make_lane(alloc, plan, &ID, lane, values, tape)?;
    let text = lane_text(alloc, u32::from(lane), &lines)?;
    append_lane(shelf, "board", text.as_slice())?;
    let zeros = shown_text(alloc, plan, values, tape, lane, false)?;
    let ones = shown_text(alloc, plan, values, tape, lane, true)?;
    let appended = append_shown(shelf, lane, lanes, zeros.as_slice(), ones.as_slice());
    appended
}

/// What is shown of a lane for the bit. The values hold for the plan.
fn shown_text(
    alloc: Global,
    plan: &Plan,
    values: &[Residue],
    tape: &LaneTape,
    lane: u16,
    bit: bool,
) -> Result<Vec<u8>, NoMemory>
    requires holds { Holds plan.now values.now }
    requires one_each { length tape.now.wires ≡ length plan.now.kinds }
{
    let shown = answer_lane(alloc, plan, values, tape, bit)?;
    let text = reply_lane_text(alloc, u32::from(lane), shown.as_slice());
    text
}

/// Appends to each reply what it shows of a lane: the text for zeros, or that for ones.
fn append_shown(
    shelf: &mut PieceShelf,
    lane: u16,
    lanes: u16,
    zeros: &[u8],
    ones: &[u8],
) -> Tried<()> {
    for asked in &ALL {
        let text = if asked.bit(lane, lanes) { ones } else { zeros };
        append_lane(shelf, asked.reply(), text)?;
    }
    Ok(())
}

/// Appends a lane in two halves, since the largest of a claim is more than may be appended at once.
fn append_lane(shelf: &mut PieceShelf, name: &str, text: &[u8]) -> Tried<()> {
    let (first, second) = text.split_at(text.len() / 2);
    shelf.append(name, first)?;
    shelf.append(name, second)?;
    Ok(())
}

/// The head of a board with so many seals and this sale.
fn head_of(terms: Terms, seals: u32, sale: Sale) -> Head {
    let (winner, price) = match sale {
        Sale::Sold { position, price } => (Some(seat_at(position)), price),
        Sale::Unsold => (None, 0),
    };
    Head {
        auction: ID,
        version: terms.version,
        width: terms.width,
        lanes: u32::from(terms.lanes),
        seals,
        reserve: terms.reserve,
        winner,
        price,
    }
}

/// The tape of a lane, from 1: those of the bids in it, and what the auctioneer draws.
fn lane_tape(alloc: Global, plan: &Plan, sealed: &[SealedBid], lane: u16) -> Tried<LaneTape>
    ensures { IfOk result (λ tape. length tape.wires ≡ length plan.now.kinds) }
{
    let mut given = Vec::new(alloc);
    let tape = tape_behind(alloc, plan, sealed, lane, &mut given);
    tape
}

/// The same, with those of the bids put there.
fn tape_behind(
    alloc: Global,
    plan: &Plan,
    sealed: &[SealedBid],
    lane: u16,
    given: &mut Vec<WireTape>,
) -> Tried<LaneTape>
    ensures { IfOk result (λ tape. length tape.wires ≡ length plan.now.kinds) }
{
    push_wires(given, sealed, lane)?;
    if given.len() != plan.inputs() as usize {
        return Err(Unreplayed::NoCase);
    }
    let mut words = ChaChaWords::of(&AUCTIONEER, &ID, u64::from(lane));
    match draw_tape(alloc, plan, given.as_slice(), &mut words) {
        Ok(tape) => Ok(tape),
        Err(_refused) => Err(Unreplayed::NoCase),
    }
}

/// The tapes of the bids in a lane, from 1.
fn push_wires(given: &mut Vec<WireTape>, sealed: &[SealedBid], lane: u16) -> Tried<()> {
    let index = usize::from(lane.saturating_sub(1));
    for bid in sealed {
        let tapes = bid.secret.lanes.as_slice();
        let tape = tapes.get(index).ok_or(Unreplayed::NoCase)?;
        given.push(tape.wire())?;
    }
    Ok(())
}

/// What each bidder keeps and hands in.
fn push_sealed(
    alloc: Global,
    sealed: &mut Vec<SealedBid>,
    bids: &[u64],
    terms: Terms,
) -> Tried<()> {
    let mut position = 0u32;
    for bid in bids {
        position = position.saturating_add(1);
        sealed.push(sealed_bid(alloc, *bid, seat_at(position), terms)?)?;
    }
    Ok(())
}

/// What one bidder keeps and hands in.
fn sealed_bid(alloc: Global, bid: u64, seat: u16, terms: Terms) -> Tried<SealedBid> {
    let lanes = u32::from(terms.lanes);
    let width = terms.width;
    if seat == 0 || width == 0 || 40 < width || lanes == 0 || 64 < lanes {
        return Err(Unreplayed::NoCase);
    }
    let mut words = ChaChaWords::of(&BIDDERS, &ID, 65536 + u64::from(seat));
    match make_seal(alloc, bid, seat, &ID, width, lanes, &mut words) {
        Ok((secret, seal)) => Ok(SealedBid {
            secret,
            lines: SealLines {
                seat: seal.seat,
                coms: seal.lanes,
            },
        }),
        Err(_refused) => Err(Unreplayed::NoCase),
    }
}

/// The plan of the bids at their sale, and the values that hold for it.
fn plan_of_bids(alloc: Global, bids: &[u64], terms: Terms) -> Tried<(Plan, Vec<Residue>)>
    requires some { 1 ≤ length bids.now }
    requires most { length bids.now ≤ 64 }
    requires width { terms.width ≤ 40 }
    ensures { IfOk result (λ made. Holds made.0 made.1.items) }
{
    let Terms {
        version,
        width,
        reserve,
        ..
    } = terms;
    let inputs = residues(alloc, bids, width)?.ok_or(Unreplayed::NoCase)?;
    let sale = sale_of(bids, reserve);
    let circuit = BoardPlan::of(version, bids.len() as u32, width, reserve, sale).ok_or(
        Unreplayed::NoCase,
    )?;
    let made = plan_and_values(alloc, &circuit, inputs.as_slice())?;
    Ok(made)
}

/// The plan of the circuit, and the values that hold for it.
pub fn plan_and_values<C: Circuit>(
    alloc: Global,
    circuit: &C,
    inputs: &[Residue],
) -> Result<(Plan, Vec<Residue>), NoMemory>
    requires { C.claim circuit.now inputs.now }
    ensures { IfOk result (λ made. Holds made.0 made.1.items) }
{
    let plan = circuit.plan(alloc)?;
    let values = circuit.fill(alloc, inputs)?;
    Ok((plan, values))
}

/// The bids as residues. None where one is not of the width.
pub fn residues(alloc: Global, bids: &[u64], width: u32) -> Result<Option<Vec<Residue>>, NoMemory>
    requires { width ≤ 40 }
    ensures same { IfOk result (λ made. IfSome made (λ inputs. inputs.items ≡ bids.now)) }
    ensures within { IfOk result
        (λ made. IfSome made (λ inputs. All (λ bid. bid < 2 ^ width) bids.now)) }
{
    let mut inputs = Vec::new(alloc);
    for bid in bids {
        if *bid >= Residue::pow2(width).get() {
            return Ok(None);
        }
        inputs.push(Residue::new(*bid).unwrap_or(Residue::ZERO))?;
    }
    Ok(Some(inputs))
}
