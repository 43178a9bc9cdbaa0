// What an honest prover publishes of a lane, and what it shows of it.
ghost use Rattle.std.specs.Prelude.{◌≡◌, ◌<◌, ◌≤◌, [], drop, length, map, slice_index, slice_index_or, IfOk};
ghost use Rattle.vk_plan.specs.Plans.{Holds};
ghost use Rattle.vk_plan.specs.declared.wire.WireKind.TheVariants.{Split};
ghost use Rattle.vk_wire.specs.Made.{made_com};
ghost use Rattle.vk_wire.specs.Values.{CanBeMade};
ghost use Rattle.vk_prover.specs.Honest.{com_of, honest_lane, honest_reply, each_wire, masks, no_tape, posted_on, shown_of};

use crate::tape::LaneTape;
use std::alloc::Global;
use vk_board::LaneLines;
use vk_plan::{Plan, RowTable};
use vk_residue::{NoMemory, Residue};
use vk_seq::Seq;
use vk_wire::{HonestWire, Shown, WireCom, WireTape, make, make_two, show, wire_place};

/// What is published of the lane, counted from 1: the commitments to each wire after the inputs,
/// and the posted number of each row. The values are those of all wires, and hold for the plan.
pub fn make_lane(
    alloc: Global,
    plan: &Plan,
    auction: &[u8; 16],
    lane: u16,
    values: &[Residue],
    tape: &LaneTape,
) -> Result<LaneLines, NoMemory>
    requires holds { Holds plan.now values.now }
    requires one_each { length tape.now.wires ≡ length plan.now.kinds }
    ensures { IfOk result
        (λ lines. lines ≡ honest_lane plan.now auction.now lane values.now tape.now.wires) }
{
    let table = RowTable::of(alloc, plan)?;
    let lines = make_lane_with(alloc, plan, &table, auction, lane, values, tape)?;
    Ok(lines)
}

/// The same with a table of the plan's rows, which serves for every lane of the plan.
pub fn make_lane_with(
    alloc: Global,
    plan: &Plan,
    table: &RowTable,
    auction: &[u8; 16],
    lane: u16,
    values: &[Residue],
    tape: &LaneTape,
) -> Result<LaneLines, NoMemory>
    requires table { table.now ≡ plan.now.rows }
    requires holds { Holds plan.now values.now }
    requires one_each { length tape.now.wires ≡ length plan.now.kinds }
    ensures { IfOk result
        (λ lines. lines ≡ honest_lane plan.now auction.now lane values.now tape.now.wires) }
{
    let wires = LaneWires {
        plan,
        auction,
        lane,
        values,
        tape,
    };
    let coms = commit_wires(alloc, &wires)?;
    let firsts = first_halves(alloc, tape)?;
    let posted = post_rows(alloc, plan, table, firsts.as_slice())?;
    Ok(LaneLines { coms, posted })
}

/// What is shown of each wire for the challenge bit. The values are those of all wires, and hold
/// for the plan.
pub fn answer_lane(
    alloc: Global,
    plan: &Plan,
    values: &[Residue],
    tape: &LaneTape,
    bit: bool,
) -> Result<Seq<Shown>, NoMemory>
    requires holds { Holds plan.now values.now }
    requires one_each { length tape.now.wires ≡ length plan.now.kinds }
    ensures { IfOk result (λ shown. shown
        ≡ honest_reply plan.now.kinds values.now tape.now.wires bit) }
{
    let mut shown = Vec::with_capacity(alloc, values.len())?;
    for wire in 0..plan.wires() {
        shown.push(show_wire(plan, values, tape, bit, wire))?;
    }
    Ok(Seq::from_vec(shown))
}

/// The wires of a lane, to be made: its plan, auction and number, and the values and secret choices
/// of all its wires.
#[derive(Clone, Copy)]
struct LaneWires<'a> {
    plan: &'a Plan,
    auction: &'a [u8; 16],
    lane: u16,
    values: &'a [Residue],
    tape: &'a LaneTape,
}

/// The commitments to each wire after the inputs.
fn commit_wires(alloc: Global, wires: &LaneWires) -> Result<Seq<WireCom>, NoMemory>
    requires holds { Holds wires.now.plan.now wires.now.values.now }
    requires one_each { length wires.now.tape.now.wires ≡ length wires.now.plan.now.kinds }
    ensures { IfOk result
        (λ coms. coms ≡ each_wire (com_of wires.now.auction.now wires.now.lane [])
        wires.now.plan.now.inputs
        (drop wires.now.plan.now.inputs wires.now.plan.now.kinds)
        (drop wires.now.plan.now.inputs wires.now.values.now)
        (drop wires.now.plan.now.inputs wires.now.tape.now.wires)) }
{
    let inputs = wires.plan.inputs();
    let count = wires.plan.wires() - inputs;
    let mut coms = Vec::with_capacity(alloc, count as usize)?;
    for two in 0..count / 2 {
        let wire = inputs + 2 * two;
        let first = honest_wire(wires, wire);
        let second = honest_wire(wires, wire + 1);
        let (first, second) = make_two(&first, &second);
        coms.push(first)?;
        coms.push(second)?;
    }
    if count % 2 == 1 {
        let last = honest_wire(wires, wires.plan.wires() - 1);
        coms.push(make(last.kind, &last.place, last.value, &last.tape))?;
    }
    Ok(Seq::from_vec(coms))
}

/// One wire after the inputs, to be made.
fn honest_wire(wires: &LaneWires, wire: u32) -> HonestWire
    requires holds { Holds wires.now.plan.now wires.now.values.now }
    requires one_each { length wires.now.tape.now.wires ≡ length wires.now.plan.now.kinds }
    requires wire { wire < length wires.now.plan.now.kinds }
    requires few { length wires.now.plan.now.kinds ≤ 16777216 }
    ensures can { CanBeMade result }
    ensures coms { made_com result.kind result.place result.value result.tape
        ≡ com_of wires.now.auction.now wires.now.lane [] wire
        (slice_index_or wires.now.plan.now.kinds wire Split)
        (slice_index wires.now.values.now wire)
        (slice_index_or wires.now.tape.now.wires wire no_tape) }
{
    let at = wire as usize;
    HonestWire {
        kind: wires.plan.kind(wire),
        place: wire_place(wires.auction, wires.lane, &[], wire),
        value: wires.values[at],
        tape: wires.tape.wires.as_slice()[at],
    }
}

/// What is shown of one wire.
fn show_wire(plan: &Plan, values: &[Residue], tape: &LaneTape, bit: bool, wire: u32) -> Shown
    requires holds { Holds plan.now values.now }
    requires one_each { length tape.now.wires ≡ length plan.now.kinds }
    requires wire { wire < length plan.now.kinds }
    ensures { result ≡ shown_of bit wire (slice_index_or plan.now.kinds wire Split)
        (slice_index values.now wire) (slice_index_or tape.now.wires wire no_tape) }
{
    let at = wire as usize;
    let wire_tape = &tape.wires.as_slice()[at];
    show(plan.kind(wire), values[at], wire_tape, bit)
}

/// The first half of each wire.
fn first_halves(alloc: Global, tape: &LaneTape) -> Result<Vec<Residue>, NoMemory>
    ensures { IfOk result (λ firsts. firsts.items ≡ masks tape.now.wires) }
{
    let mut firsts = Vec::with_capacity(alloc, tape.wires.len())?;
    for wire in tape.wires.as_slice() {
        firsts.push(wire.mask)?;
    }
    Ok(firsts)
}

/// What is posted for each row.
fn post_rows(
    alloc: Global,
    plan: &Plan,
    table: &RowTable,
    firsts: &[Residue],
) -> Result<Seq<Residue>, NoMemory>
    requires table { table.now ≡ plan.now.rows }
    requires firsts { length firsts.now ≡ length plan.now.kinds }
    ensures { IfOk result (λ numbers. numbers ≡ map (posted_on firsts.now) plan.now.rows) }
{
    let mut numbers = Vec::with_capacity(alloc, plan.rows() as usize)?;
    for row in 0..plan.rows() {
        numbers.push(table.sum(row, firsts))?;
    }
    Ok(Seq::from_vec(numbers))
}
