// One bid of 0 by seat 7, a copy of it, and a pair for its one bit; and three bids of width 8. The
// commitment to the copy's mask was made by an independent implementation.
ghost use Rattle.std.specs.Prelude.{◌≡◌, ◌<◌, ◌≤◌, IfOk, length};
ghost use Rattle.vk_plan.specs.Plans.{Holds};

use super::numbers::{AUCTION, COPY, accepted_halves, half, inputs_of, opening, residue};
use std::alloc::Global;
use std::panic::Expect;
use std::process::Abort;
use vk_board::LaneLines;
use vk_dice::{ChaChaWords, ListWords, Words};
use vk_plan::{Circuit, Plan, WireKind};
use vk_prover::{DrawErr, LaneTape, answer_lane, draw_tape, make_lane};
use vk_residue::{NoMemory, Residue};
use vk_row::LaneCase;
use vk_seq::Seq;
use vk_vickrey::{VickreyPlan, outcome};
use vk_wire::{Shown, WireCom, WireTape, make, wire_place};

fn wire_tape(mask: u64, key: u8) -> WireTape
    requires { key < 255 }
{
    WireTape {
        mask: residue(mask),
        swap: false,
        first_key: [key; 32],
        second_key: [key + 1; 32],
    }
}

/// The plan of the circuit, and the values that hold for it.
fn plan_and_values<C: Circuit>(
    alloc: Global,
    circuit: &C,
    inputs: &[Residue],
) -> Result<(Plan, Vec<Residue>), NoMemory>
    requires { C.claim circuit.now inputs.now }
    ensures { IfOk result (λ made. Holds made.0 made.1.items) }
{
    let plan = circuit.plan(alloc)?;
    let values = circuit.fill(alloc, inputs)?;
    Ok((plan, values))
}

/// The plan of the bids at their outcome, and the values that hold for it.
fn plan_of_bids(
    rt: &impl Abort,
    alloc: Global,
    bids: &[u64],
    width: u32,
) -> Result<(Plan, Vec<Residue>), NoMemory>
    requires some { 1 ≤ length bids.now }
    requires most { length bids.now ≤ 64 }
    requires width { width ≤ 40 }
    ensures { IfOk result (λ made. Holds made.0 made.1.items) }
{
    let inputs = inputs_of(alloc, bids, width)?.expect(rt, "of the width");
    let circuit = VickreyPlan::new(bids.len() as u32, width, outcome(bids)).expect(
        rt,
        "within the limits",
    );
    let made = plan_and_values(alloc, &circuit, inputs.as_slice())?;
    Ok(made)
}

/// All that is public of a lane, with the commitments of the seals in front.
fn case_of(
    alloc: Global,
    lane: u16,
    seats: &[u16],
    seals: &[WireCom],
    lines: LaneLines,
) -> Result<LaneCase, NoMemory> {
    let seats = Vec::from_slice(alloc, seats)?;
    let mut coms = Vec::from_slice(alloc, seals)?;
    coms.extend_from_slice(lines.coms.as_slice())?;
    Ok(LaneCase {
        auction: AUCTION,
        lane,
        seats: Seq::from_vec(seats),
        coms: Seq::from_vec(coms),
        posted: lines.posted,
    })
}

fn tape_of_a_bit(alloc: Global) -> Result<LaneTape, NoMemory> {
    let tapes = [wire_tape(3, 0x11), wire_tape(10, 0x33), wire_tape(4, 0x55)];
    let wires = Vec::from_array(alloc, tapes)?;
    Ok(LaneTape {
        wires: Seq::from_vec(wires),
    })
}

/// What is to be shown of the lane for the bit.
fn shown_of_a_bit(bit: bool) -> [Shown; 3] {
    let first = opening([0x55; 32], 2305843009213693947);
    if bit {
        [
            half(0x12, 2305843009213693948),
            half(0x34, 2305843009213693941),
            Shown::Spent {
                second: false,
                opening: first,
            },
        ]
    } else {
        let second = opening([0x56; 32], 2305843009213693948);
        [half(0x11, 3), half(0x33, 10), Shown::Whole(first, second)]
    }
}

/// The halves of the lane for the bit.
fn halves_of_a_bit(bit: bool) -> [u64; 3] {
    if bit {
        [
            2305843009213693948,
            2305843009213693941,
            2305843009213693947,
        ]
    } else {
        [3, 10, 4]
    }
}

#[test]
fn a_lane_of_a_bit_is_published_and_answered(rt: HostRuntime) {
    assert!(rt; try_bit(&rt, rt.alloc()).is_ok());
}

fn try_bit(rt: &impl Abort, alloc: Global) -> Result<(), NoMemory> {
    let (plan, values) = plan_of_bids(rt, alloc, &[0], 1)?;
    let tape = tape_of_a_bit(alloc)?;
    let lines = lines_of_a_bit(rt, alloc, &plan, values.as_slice(), &tape)?;
    let place = wire_place(&AUCTION, 1, &[7], 0);
    let seal = make(WireKind::Split, &place, Residue::ZERO, &wire_tape(3, 0x11));
    let case = case_of(alloc, 1, &[7], &[seal], lines)?;
    try_reply(rt, alloc, &plan, &case, false);
    try_reply(rt, alloc, &plan, &case, true);
    Ok(())
}

// What is tried is borrowed: nothing is dropped where an assertion ends it, and so it is proved
// fast.

/// What is published of the lane, once both replies are seen to show their halves.
fn lines_of_a_bit(
    rt: &impl Abort,
    alloc: Global,
    plan: &Plan,
    values: &[Residue],
    tape: &LaneTape,
) -> Result<LaneLines, NoMemory>
    requires { Holds plan.now values.now }
{
    assert!(rt; tape.wires.len() == plan.wires() as usize);
    assert!(rt; values == [Residue::ZERO; 3].as_slice());
    try_shown(rt, alloc, plan, values, tape, false)?;
    try_shown(rt, alloc, plan, values, tape, true)?;
    let lines = make_lane(alloc, plan, &AUCTION, 1, values, tape)?;
    check_lines(rt, &lines);
    Ok(lines)
}

fn check_lines(rt: &impl Abort, lines: &LaneLines) {
    let posted = [residue(2305843009213693944), residue(6)];
    assert!(rt; lines.posted.as_slice() == posted.as_slice());
    let copy = lines.coms.as_slice().first().expect(rt, "a commitment");
    assert!(rt; copy.first == COPY.first);
}

/// The reply for the bit shows its halves.
fn try_shown(
    rt: &impl Abort,
    alloc: Global,
    plan: &Plan,
    values: &[Residue],
    tape: &LaneTape,
    bit: bool,
) -> Result<(), NoMemory>
    requires holds { Holds plan.now values.now }
    requires one_each { length tape.now.wires ≡ length plan.now.kinds }
{
    let shown = answer_lane(alloc, plan, values, tape, bit)?;
    let same = shown.as_slice() == shown_of_a_bit(bit).as_slice();
    assert!(rt; same);
    Ok(())
}

/// The reply for the bit is accepted with the halves that it is known to have.
fn try_reply(rt: &impl Abort, alloc: Global, plan: &Plan, case: &LaneCase, bit: bool) {
    let halves = accepted_halves(rt, alloc, plan, case, bit, &shown_of_a_bit(bit));
    let same = are(halves.as_slice(), halves_of_a_bit(bit));
    assert!(rt; same);
}

/// Whether these are three residues of those numbers.
fn are(halves: &[Residue], numbers: [u64; 3]) -> bool {
    match halves {
        [first, second, third] => [first.get(), second.get(), third.get()] == numbers,
        _ => false,
    }
}

/// One input, and two wires that nothing is said of.
fn plan_of_three(alloc: Global) -> Result<Plan, NoMemory>
    ensures { IfOk result (λ plan. plan.inputs ≡ 1) }
{
    let mut plan = Plan::new(alloc, 1)?;
    plan.append(&[WireKind::Split, WireKind::Split], None)?;
    Ok(plan)
}

/// The words 256 and 1 and two more: 32 bytes, the words from the highest byte to the lowest.
const KEY: [u8; 32] = [
    0, 0, 0, 0, 0, 0, 1, 0, 0, 0, 0, 0, 0, 0, 0, 1, 0, 0, 0, 0, 0, 0, 0, 2, 0, 0, 0, 0, 0, 0, 0, 3,
];

#[test]
fn tapes_of_three_wires_are_drawn(rt: HostRuntime) {
    assert!(rt; try_three(&rt, rt.alloc()).is_ok());
}

fn try_three(rt: &impl Abort, alloc: Global) -> Result<(), NoMemory> {
    let plan = plan_of_three(alloc)?;
    a_residue_a_bit_and_two_keys_are_drawn(rt, alloc, &plan)?;
    a_wire_that_is_dry_is_named(rt, alloc, &plan)
}

fn a_residue_a_bit_and_two_keys_are_drawn(
    rt: &impl Abort,
    alloc: Global,
    plan: &Plan,
) -> Result<(), NoMemory>
    requires { plan.now.inputs ≡ 1 }
{
    let most = 18446744073709551615;
    let ahead = [most, 5, 7, 256, 1, 2, 3, 0, 0, 0, 0, 8, 2];
    let mut words = ListWords::of(alloc, &ahead)?;
    let tape = draw_tape(alloc, plan, &[wire_tape(3, 0x11)], &mut words).expect(rt, "a tape");
    check_tape(rt, &tape);
    Ok(())
}

fn check_tape(rt: &impl Abort, tape: &LaneTape) {
    let first = WireTape {
        mask: residue(5),
        swap: true,
        first_key: KEY,
        second_key: [0; 32],
    };
    let second = WireTape {
        mask: residue(8),
        swap: false,
        first_key: [0; 32],
        second_key: [0; 32],
    };
    assert!(rt; tape.wires.as_slice() == [wire_tape(3, 0x11), first, second].as_slice());
}

fn a_wire_that_is_dry_is_named(rt: &impl Abort, alloc: Global, plan: &Plan) -> Result<(), NoMemory>
    requires { plan.now.inputs ≡ 1 }
{
    let most = 18446744073709551615;
    let ahead = [5, 7, 0, 0, 0, 0, 0, 0, 0, 0, most, most, most, most];
    let mut words = ListWords::of(alloc, &ahead)?;
    let refused = draw_tape(alloc, plan, &[wire_tape(3, 0x11)], &mut words).err();
    assert!(rt; refused == Some(DrawErr::DrySeed { wire: 2 }));
    Ok(())
}

const SEATS: [u16; 3] = [7, 9, 300];

const BIDS: [u64; 3] = [200, 13, 250];

fn given_tapes() -> [WireTape; 3] {
    [
        wire_tape(3, 0x11),
        wire_tape(2305843009213693950, 0x33),
        wire_tape(1000, 0x55),
    ]
}

/// What a seal of the three commits to in lane 2.
fn seal_com(seal: u32) -> WireCom
    requires { seal < 3 }
{
    let place = wire_place(&AUCTION, 2, &SEATS, seal);
    let bid = residue(BIDS[seal as usize]);
    let given = given_tapes();
    make(WireKind::Split, &place, bid, &given[seal as usize])
}

#[test]
fn both_replies_of_three_seals_are_accepted(rt: HostRuntime) {
    assert!(rt; try_seals(&rt, rt.alloc()).is_ok());
}

fn try_seals(rt: &impl Abort, alloc: Global) -> Result<(), NoMemory> {
    let (plan, values) = plan_of_bids(rt, alloc, &BIDS, 8)?;
    let mut words = ChaChaWords::of(&[7; 32], &AUCTION, 2);
    let drawn = tape_of_seals(rt, alloc, &plan, &mut words);
    let tape = drawn.expect(rt, "a tape");
    try_lane(rt, alloc, &plan, values.as_slice(), &tape)
}

/// A tape for the plan of three seals, behind the tapes that are given.
fn tape_of_seals<W: Words>(
    rt: &impl Abort,
    alloc: Global,
    plan: &Plan,
    words: &mut W,
) -> Result<LaneTape, DrawErr>
    ensures { IfOk result (λ tape. length tape.wires ≡ length plan.now.kinds) }
{
    assert!(rt; plan.inputs() == 3);
    let tape = draw_tape(alloc, plan, &given_tapes(), words)?;
    Ok(tape)
}

/// The bids and their copies are the values of the first wires.
fn try_lane(
    rt: &impl Abort,
    alloc: Global,
    plan: &Plan,
    values: &[Residue],
    tape: &LaneTape,
) -> Result<(), NoMemory>
    requires holds { Holds plan.now values.now }
    requires one_each { length tape.now.wires ≡ length plan.now.kinds }
{
    let lines = make_lane(alloc, plan, &AUCTION, 2, values, tape)?;
    let counts = [lines.coms.len(), lines.posted.len()];
    let seals = [seal_com(0), seal_com(1), seal_com(2)];
    let case = case_of(alloc, 2, &SEATS, &seals, lines)?;
    assert!(rt; counts == [77, 13]);
    try_halves(rt, alloc, plan, values, tape, &case)
}

fn try_halves(
    rt: &impl Abort,
    alloc: Global,
    plan: &Plan,
    values: &[Residue],
    tape: &LaneTape,
    case: &LaneCase,
) -> Result<(), NoMemory>
    requires holds { Holds plan.now values.now }
    requires one_each { length tape.now.wires ≡ length plan.now.kinds }
{
    let firsts = halves_of_seals(rt, alloc, plan, values, tape, case, false)?;
    let seconds = halves_of_seals(rt, alloc, plan, values, tape, case, true)?;
    check_values(rt, firsts.as_slice(), seconds.as_slice());
    Ok(())
}

/// The halves of the accepted reply for the bit.
fn halves_of_seals(
    rt: &impl Abort,
    alloc: Global,
    plan: &Plan,
    values: &[Residue],
    tape: &LaneTape,
    case: &LaneCase,
    bit: bool,
) -> Result<Vec<Residue>, NoMemory>
    requires holds { Holds plan.now values.now }
    requires one_each { length tape.now.wires ≡ length plan.now.kinds }
{
    let shown = answer_lane(alloc, plan, values, tape, bit)?;
    Ok(accepted_halves(rt, alloc, plan, case, bit, shown.as_slice()))
}

fn check_values(rt: &impl Abort, firsts: &[Residue], seconds: &[Residue]) {
    for (wire, bid) in [(0, 200), (1, 13), (2, 250), (3, 200), (4, 13), (5, 250)] {
        assert!(rt; value_at(firsts, seconds, wire) == Some(bid), "wire {wire}");
    }
}

/// The value of a wire by its two halves.
fn value_at(firsts: &[Residue], seconds: &[Residue], wire: usize) -> Option<u64> {
    let first = firsts.get(wire)?;
    let second = seconds.get(wire)?;
    Some(first.add(*second).get())
}

#[test]
fn a_later_wire_that_is_dry_is_named(rt: HostRuntime) {
    assert!(rt; try_dry(&rt, rt.alloc()).is_ok());
}

fn try_dry(rt: &impl Abort, alloc: Global) -> Result<(), NoMemory> {
    let (plan, _values) = plan_of_bids(rt, alloc, &BIDS, 8)?;
    let mut ahead = [0; 55];
    ahead[50..54].copy_from_slice(&[18446744073709551615; 4]);
    ahead[54] = 11;
    let mut words = ListWords::of(alloc, &ahead)?;
    check_dry(rt, alloc, &plan, &mut words);
    Ok(())
}

fn check_dry<W: Words>(rt: &impl Abort, alloc: Global, plan: &Plan, words: &mut W) {
    let refused = tape_of_seals(rt, alloc, plan, words).err();
    assert!(rt; refused == Some(DrawErr::DrySeed { wire: 8 }));
    assert!(rt; words.next() == 11);
}
