// Lanes of small auctions: the values of two lists of bids of one outcome, the moved tape, and what
// is seen of both.
ghost use Rattle.std.specs.Prelude.{◌≡◌, ◌<◌, ◌^◌, All, IfOk, length};
ghost use Rattle.vk_plan.specs.Plans.{Holds};
ghost use Rattle.vk_vickrey.specs.VickreyPlans.{vickrey_plan};

use crate::parts::{part_at, parts_of};
use crate::views::put_moved;
use crate::wires::{put_shown, tape_of};
use std::alloc::Global;
use vk_cases::{Text, Tried, Unreplayed, number_at};
use vk_lines::{behind_word, fields};
use vk_plan::{Circuit, Plan};
use vk_prover::LaneTape;
use vk_residue::Residue;
use vk_seq::Seq;
use vk_vickrey::{VickreyOutcome, VickreyPlan, outcome};
use vk_views::{LaneView, moved, view};
use vk_wire::{Shown, WireTape};

/// What there is of a lane for one bit: the moved tape, the view of the bids with the tape, and
/// that of the other bids with the moved tape.
#[derive(Drop)]
struct Seen {
    moved: LaneTape,
    view: LaneView,
    again: LaneView,
}

/// A case with the circuit and the tape of its lane.
#[derive(Drop)]
struct LaneCase<'a> {
    case: &'a [u8],
    circuit: VickreyPlan,
    tape: LaneTape,
}

/// The case with the values of both lists of bids behind these, and what is seen of the lane.
pub fn put_lane(alloc: Global, text: &mut Text, case: &[u8]) -> Tried<()> {
    let circuit = circuit_of(part_at(case, b'|', 0)?)?;
    put_parts(text, case, 0, 3)?;
    let tape = tape_in(alloc, case)?;
    let lane = LaneCase {
        case,
        circuit,
        tape,
    };
    let put = put_with_tape(alloc, text, &lane);
    put
}

/// The parts of the case from one place to before another, a line each.
fn put_parts(text: &mut Text, case: &[u8], first: usize, end: usize) -> Tried<()> {
    for place in first..end {
        text.put_line(part_at(case, b'|', place)?);
    }
    Ok(())
}

/// The circuit of `plan seals N width T winner W price P`.
fn circuit_of(plan: &[u8]) -> Tried<VickreyPlan> {
    let seals = number_at(plan, 2, 64)?;
    let width = number_at(plan, 4, 40)?;
    let position = number_at(plan, 6, 64)? as u32;
    let price = number_at(plan, 8, u64::MAX)?;
    let published = VickreyOutcome { position, price };
    match VickreyPlan::new(seals as u32, width as u32, published) {
        Some(circuit) => Ok(circuit),
        None => Err(Unreplayed::NoCase),
    }
}

/// The tape of the parts that begin with `tape`, one wire each.
fn tape_in(alloc: Global, case: &[u8]) -> Tried<LaneTape> {
    let mut wires = Seq::new(alloc);
    put_tapes(&mut wires, case)?;
    Ok(LaneTape { wires })
}

/// Appends the tapes of the parts that begin with `tape`.
fn put_tapes(wires: &mut Seq<WireTape>, case: &[u8]) -> Tried<()> {
    for place in 0..parts_of(case, b'|') {
        let part = part_at(case, b'|', place)?;
        if behind_word(part, b"tape").is_some() {
            wires.push(tape_of(part, 1)?)?;
        }
    }
    Ok(())
}

/// The values of both lists of bids, and what is seen of the lane.
fn put_with_tape(alloc: Global, text: &mut Text, lane: &LaneCase<'_>) -> Tried<()> {
    let plan = lane.circuit.plan(alloc)?;
    put_with_plan(alloc, text, lane, &plan)
}

/// The values of both lists of bids, and what is seen of the lane of this plan.
fn put_with_plan(alloc: Global, text: &mut Text, lane: &LaneCase<'_>, plan: &Plan) -> Tried<()>
    requires { let circuit = lane.now.circuit in plan.now
        ≡ vickrey_plan circuit.seals circuit.width circuit.position circuit.price }
{
    if lane.tape.wires.len() != plan.wires() as usize {
        return Err(Unreplayed::NoCase);
    }
    let values = values_in(alloc, &lane.circuit, part_at(lane.case, b'|', 1)?, b"bids")?;
    put_with_values(alloc, text, lane, plan, values.as_slice())
}

/// The values of both lists of bids, of which these are the first, and what is seen of the lane.
fn put_with_values(
    alloc: Global,
    text: &mut Text,
    lane: &LaneCase<'_>,
    plan: &Plan,
    values: &[Residue],
) -> Tried<()>
    requires plan { let circuit = lane.now.circuit in plan.now
        ≡ vickrey_plan circuit.seals circuit.width circuit.position circuit.price }
    requires values { Holds plan.now values.now }
    requires one_each { length lane.now.tape.wires ≡ length plan.now.kinds }
{
    let others = values_in(
        alloc,
        &lane.circuit,
        part_at(lane.case, b'|', 2)?,
        b"others",
    )?;
    put_looks(
        alloc,
        text,
        lane.case,
        plan,
        &lane.tape,
        values,
        others.as_slice(),
    )
}

/// The values of all wires for the bids behind that word.
fn values_in(alloc: Global, circuit: &VickreyPlan, part: &[u8], word: &[u8]) -> Tried<Vec<Residue>>
    ensures { IfOk result (λ values. Holds
        (vickrey_plan circuit.now.seals circuit.now.width circuit.now.position circuit.now.price)
        values.items) }
{
    if behind_word(part, word).is_none() {
        return Err(Unreplayed::NoCase);
    }
    let bids = bids_of(alloc, part)?;
    let values = values_of(alloc, circuit, bids.as_slice())?;
    Ok(values)
}

/// The numbers behind the first word, with spaces between them.
fn bids_of(alloc: Global, part: &[u8]) -> Tried<Vec<u64>> {
    let mut bids = Vec::new(alloc);
    for place in 1..fields(part) {
        bids.push(number_at(part, place, u64::MAX)?)?;
    }
    Ok(bids)
}

/// The values of all wires for these bids. An error where they are not of the circuit's width and
/// outcome.
fn values_of(alloc: Global, circuit: &VickreyPlan, bids: &[u64]) -> Tried<Vec<Residue>>
    ensures { IfOk result (λ values. Holds
        (vickrey_plan circuit.now.seals circuit.now.width circuit.now.position circuit.now.price)
        values.items) }
{
    if bids.is_empty() || bids.len() > 64 || bids.len() != circuit.seals as usize {
        return Err(Unreplayed::NoCase);
    }
    let outcome = outcome(bids);
    if outcome.position != circuit.position || outcome.price != circuit.price {
        return Err(Unreplayed::NoCase);
    }
    let inputs = inputs_of(alloc, bids, circuit.width)?;
    let values = circuit.fill(alloc, inputs.as_slice())?;
    Ok(values)
}

/// The bids as residues. An error where one is not of the width.
fn inputs_of(alloc: Global, bids: &[u64], width: u32) -> Tried<Vec<Residue>>
    ensures same { IfOk result (λ inputs. inputs.items ≡ bids.now) }
    ensures within { IfOk result (λ inputs. All (λ bid. bid < 2 ^ width) bids.now) }
{
    if width > 60 {
        return Err(Unreplayed::NoCase);
    }
    let mut inputs = Vec::new(alloc);
    for bid in bids {
        if *bid >= Residue::pow2(width).get() {
            return Err(Unreplayed::NoCase);
        }
        inputs.push(Residue::new(*bid).ok_or(Unreplayed::NoCase)?)?;
    }
    Ok(inputs)
}

/// The values of both lists of bids, the tapes, and what is seen of the lane for either bit.
fn put_looks(
    alloc: Global,
    text: &mut Text,
    case: &[u8],
    plan: &Plan,
    tape: &LaneTape,
    values: &[Residue],
    others: &[Residue],
) -> Tried<()>
    requires values { Holds plan.now values.now }
    requires others { Holds plan.now others.now }
    requires one_each { length tape.now.wires ≡ length plan.now.kinds }
{
    put_values(text, b"values", values);
    put_values(text, b"other-values", others);
    put_parts(text, case, 3, parts_of(case, b'|'))?;
    let first = looked_at(alloc, plan, tape, values, others, false)?;
    put_second(alloc, text, plan, tape, values, others, &first)
}

/// What is seen of the lane for either bit, where this is what there is for the first.
fn put_second(
    alloc: Global,
    text: &mut Text,
    plan: &Plan,
    tape: &LaneTape,
    values: &[Residue],
    others: &[Residue],
    first: &Seen,
) -> Tried<()>
    requires values { Holds plan.now values.now }
    requires others { Holds plan.now others.now }
    requires one_each { length tape.now.wires ≡ length plan.now.kinds }
{
    let second = looked_at(alloc, plan, tape, values, others, true)?;
    put_seen(text, tape, first, &second);
    Ok(())
}

/// What there is of the lane for the bit.
fn looked_at(
    alloc: Global,
    plan: &Plan,
    tape: &LaneTape,
    values: &[Residue],
    others: &[Residue],
    bit: bool,
) -> Tried<Seen>
    requires values { Holds plan.now values.now }
    requires others { Holds plan.now others.now }
    requires one_each { length tape.now.wires ≡ length plan.now.kinds }
{
    let moved = moved(alloc, plan, values, others, bit, tape)?;
    let again = view(alloc, plan, others, &moved, bit)?;
    let view = view(alloc, plan, values, tape, bit)?;
    Ok(Seen { moved, view, again })
}

/// Where a moved tape is another one, what is posted, and what is shown for either bit.
fn put_seen(text: &mut Text, tape: &LaneTape, first: &Seen, second: &Seen) {
    put_moves(text, b"moved0 ", tape, &first.moved);
    put_moves(text, b"moved1 ", tape, &second.moved);
    put_values(text, b"posted", first.view.posted.as_slice());
    put_all_shown(text, b"shown0 ", first.view.shown.as_slice());
    put_all_shown(text, b"shown1 ", second.view.shown.as_slice());
    if second.view.posted.as_slice() != first.view.posted.as_slice() {
        text.put_line(b"bit 1 posts otherwise");
    }
    put_difference(text, first);
    put_difference(text, second);
}

/// A line where the other bids with the moved tape are seen otherwise.
fn put_difference(text: &mut Text, seen: &Seen) {
    if seen.again.shown.as_slice() != seen.view.shown.as_slice() {
        text.put_line(b"the other bids show otherwise");
    }
    if seen.again.posted.as_slice() != seen.view.posted.as_slice() {
        text.put_line(b"the other bids post otherwise");
    }
}

/// The wires whose tape is another one once it is moved.
fn put_moves(text: &mut Text, word: &[u8], tape: &LaneTape, moved: &LaneTape) {
    let before = tape.wires.as_slice();
    let after = moved.wires.as_slice();
    for wire in 0..after.len() {
        if wire < before.len() && after[wire] != before[wire] {
            text.put_number(word, wire as u64);
            put_moved(text, &after[wire]);
        }
    }
}

/// What is shown of each wire.
fn put_all_shown(text: &mut Text, word: &[u8], all: &[Shown]) {
    for wire in 0..all.len() {
        text.put_number(word, wire as u64);
        put_shown(text, &all[wire]);
        text.put(b"\n");
    }
}

/// The word and the values, as a line.
fn put_values(text: &mut Text, word: &[u8], values: &[Residue]) {
    text.put(word);
    for value in values {
        text.put_number(b" ", value.get());
    }
    text.put(b"\n");
}
