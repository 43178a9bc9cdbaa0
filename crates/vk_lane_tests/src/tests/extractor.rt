// A lane that an independent implementation made, and a lane with a pair.
ghost use Rattle.std.specs.Prelude.{◌≡◌, ◌<◌, ◌^◌, IfOk, length};
ghost use Rattle.vk_row.specs.Lanes.{HasCounts};
ghost use Rattle.vk_plan.specs.Plans.{HasWeight, MayHave};
ghost use Rattle.vk_plan.specs.declared.wire.WireKind.TheVariants.{Pair};

use super::numbers::{
    AUCTION, BID, COPY, MINUS_ONE, case_of_two, half, has_counts, opening, plan_of_two,
    posted_number, residue, seat_7,
};
use std::alloc::Global;
use std::panic::Expect;
use std::process::Abort;
use vk_commit::{Opening, Place, opens};
use vk_extractor::{confront, extract_lane};
use vk_plan::{Plan, WireKind};
use vk_residue::{NoMemory, Residue};
use vk_row::{LaneCase, check_lane};
use vk_seal::{Secret, XTape};
use vk_seq::Seq;
use vk_wire::{Shown, WireCom, WireTape, make, show, wire_place};

/// The values of a lane, once both challenges are accepted.
fn values_of_lane(
    rt: &impl Abort,
    alloc: Global,
    plan: &Plan,
    case: &LaneCase,
    zero: &[Shown],
    one: &[Shown],
) -> Vec<Residue>
    requires zero { HasCounts plan.now case.now zero.now }
    requires one { HasCounts plan.now case.now one.now }
{
    let _firsts = check_lane(alloc, plan, case, false, zero).expect(rt, "accepted for bit 0");
    let _seconds = check_lane(alloc, plan, case, true, one).expect(rt, "accepted for bit 1");
    extract_lane(alloc, plan, case, zero, one).expect(rt, "no clash")
}

/// The lane of two wires gives this value twice.
fn try_two(
    rt: &impl Abort,
    alloc: Global,
    plan: &Plan,
    case: &LaneCase,
    zero: &[Shown; 2],
    one: &[Shown; 2],
    value: Residue,
) {
    assert!(rt; has_counts(plan, case, zero));
    assert!(rt; has_counts(plan, case, one));
    let values = values_of_lane(rt, alloc, plan, case, zero, one);
    let same = values.as_slice() == [value, value].as_slice();
    assert!(rt; same);
}

#[test]
fn a_lane_made_elsewhere_gives_its_bid(rt: HostRuntime) {
    assert!(rt; try_elsewhere(&rt, rt.alloc()).is_ok());
}

fn try_elsewhere(rt: &impl Abort, alloc: Global) -> Result<(), NoMemory> {
    let plan = plan_of_two(alloc, WireKind::Split)?;
    let case = case_of_two(alloc, BID, COPY, 2305843009213693944)?;
    let zero = [half(0x11, 3), half(0x33, 10)];
    let one = [half(0x22, 2), half(0x44, 2305843009213693946)];
    try_two(rt, alloc, &plan, &case, &zero, &one, residue(5));
    Ok(())
}

fn tape(mask: u64, swap: bool) -> WireTape {
    WireTape {
        mask: residue(mask),
        swap,
        first_key: [1; 32],
        second_key: [2; 32],
    }
}

fn eight_or_zero(full: bool) -> Residue
    ensures { MayHave (Pair 3) result }
{
    if full {
        Residue::pow2(3)
    } else {
        Residue::ZERO
    }
}

#[test]
fn pairs_give_0_or_their_weight(rt: HostRuntime) {
    assert!(rt; try_pairs(&rt, rt.alloc()).is_ok());
}

fn try_pairs(rt: &impl Abort, alloc: Global) -> Result<(), NoMemory> {
    let plan = plan_of_two(alloc, WireKind::Pair(3))?;
    try_pair(rt, alloc, &plan, eight_or_zero(false), false)?;
    try_pair(rt, alloc, &plan, eight_or_zero(false), true)?;
    try_pair(rt, alloc, &plan, eight_or_zero(true), false)?;
    try_pair(rt, alloc, &plan, eight_or_zero(true), true)
}

/// A pair of that value gives it, as the bid does that it is a copy of.
fn try_pair(
    rt: &impl Abort,
    alloc: Global,
    plan: &Plan,
    value: Residue,
    swap: bool,
) -> Result<(), NoMemory>
    requires { MayHave (Pair 3) value }
{
    let kind = WireKind::Pair(3);
    let (bid, pair) = (tape(9, false), tape(5, swap));
    let first = make(
        WireKind::Split,
        &wire_place(&AUCTION, 1, &[7], 0),
        value,
        &bid,
    );
    let second = make(kind, &wire_place(&AUCTION, 1, &[7], 1), value, &pair);
    let case = case_of_two(alloc, first, second, 4)?;
    let zero = shown_of_pair(value, &bid, &pair, false);
    let one = shown_of_pair(value, &bid, &pair, true);
    try_two(rt, alloc, plan, &case, &zero, &one, value);
    Ok(())
}

/// What is shown of the bid and of the pair for the bit.
fn shown_of_pair(value: Residue, bid: &WireTape, pair: &WireTape, bit: bool) -> [Shown; 2]
    requires { MayHave (Pair 3) value }
{
    [
        show(WireKind::Split, value, bid, bit),
        show(WireKind::Pair(3), value, pair, bit),
    ]
}

/// The plan of two wires, and 100 pairs of weight 8 after them.
fn plan_of_many(alloc: Global) -> Result<Plan, NoMemory> {
    let mut plan = plan_of_two(alloc, WireKind::Split)?;
    while plan.wires() < 102 {
        plan.append(&[WireKind::Pair(3)], None)?;
    }
    Ok(plan)
}

/// The value that an honest wire has in the lane of many wires: 5, or of a pair its weight on every
/// third wire.
fn value_at(kind: WireKind, wire: u32) -> Residue
    requires { HasWeight kind }
    ensures { MayHave kind result }
{
    match kind {
        WireKind::Split => residue(5),
        WireKind::Pair(i) => {
            if wire % 3 == 0 {
                Residue::pow2(i)
            } else {
                Residue::ZERO
            }
        }
    }
}

fn tape_at(wire: u32) -> WireTape {
    tape(u64::from(wire) + 9, wire % 2 == 0)
}

/// What lane 2 of the plan commits to. Its one row has the masks 9 and 10.
fn case_of_many(alloc: Global, plan: &Plan) -> Result<LaneCase, NoMemory> {
    let seats = seat_7(alloc)?;
    let posted = posted_number(alloc, MINUS_ONE)?;
    let coms = coms_of_many(alloc, plan)?;
    Ok(LaneCase {
        auction: AUCTION,
        lane: 2,
        seats,
        coms,
        posted,
    })
}

fn coms_of_many(alloc: Global, plan: &Plan) -> Result<Seq<WireCom>, NoMemory> {
    let mut coms = Seq::new(alloc);
    for wire in 0..plan.wires() {
        let kind = plan.kind(wire);
        let place = wire_place(&AUCTION, 2, &[7], wire);
        coms.push(make(kind, &place, value_at(kind, wire), &tape_at(wire)))?;
    }
    Ok(coms)
}

/// What is shown of all wires of the plan for the bit.
fn shown_of_many(alloc: Global, plan: &Plan, bit: bool) -> Result<Vec<Shown>, NoMemory> {
    let mut all = Vec::new(alloc);
    for wire in 0..plan.wires() {
        let kind = plan.kind(wire);
        all.push(show(kind, value_at(kind, wire), &tape_at(wire), bit))?;
    }
    Ok(all)
}

#[test]
fn many_wires_of_lane_2_give_their_values(rt: HostRuntime) {
    assert!(rt; try_plan_of_many(&rt, rt.alloc()).is_ok());
}

fn try_plan_of_many(rt: &impl Abort, alloc: Global) -> Result<(), NoMemory> {
    let plan = plan_of_many(alloc)?;
    let case = case_of_many(alloc, &plan)?;
    try_lane_of_many(rt, alloc, &plan, &case)
}

fn try_lane_of_many(
    rt: &impl Abort,
    alloc: Global,
    plan: &Plan,
    case: &LaneCase,
) -> Result<(), NoMemory> {
    let zero = shown_of_many(alloc, plan, false)?;
    let one = shown_of_many(alloc, plan, true)?;
    try_many(rt, alloc, plan, case, zero.as_slice(), one.as_slice());
    Ok(())
}

fn try_many(
    rt: &impl Abort,
    alloc: Global,
    plan: &Plan,
    case: &LaneCase,
    zero: &[Shown],
    one: &[Shown],
) {
    assert!(rt; has_counts(plan, case, zero));
    assert!(rt; has_counts(plan, case, one));
    let values = values_of_lane(rt, alloc, plan, case, zero, one);
    try_values(rt, plan, values.as_slice());
}

fn try_values(rt: &impl Abort, plan: &Plan, values: &[Residue]) {
    assert!(rt; values.len() == 102);
    for wire in 0..plan.wires() {
        let value = value_at(plan.kind(wire), wire);
        assert!(rt; values.get(wire as usize) == Some(&value), "wire {wire}");
    }
}

/// The bid 5 at seat 7, which lane 1 splits into 3 and 2.
fn secret_of_five(alloc: Global) -> Result<Secret, NoMemory>
    ensures bid { IfOk result (λ secret. secret.bid ≡ 5) }
    ensures lanes { IfOk result (λ secret. length secret.lanes ≡ 1) }
{
    let tape = XTape {
        mask: residue(3),
        first_key: [0x11; 32],
        second_key: [0x22; 32],
    };
    let lanes = Vec::from_array(alloc, [tape])?;
    Ok(Secret {
        auction: AUCTION,
        seat: 7,
        bid: 5,
        lanes: Seq::from_vec(lanes),
    })
}

/// Whether these are its halves of lane 1 against which nothing can be shown. None where they don't
/// open its commitments.
fn holds_lane_1(secret: &Secret, first: &Opening, second: &Opening) -> Option<bool>
    requires bid { secret.now.bid < 2 ^ 40 }
    requires lanes { length secret.now.lanes ≡ 1 }
{
    let place = wire_place(&secret.auction, 1, &[secret.seat], 0);
    let next = Place { slot: 1, ..place };
    let bid = residue(secret.bid);
    let digests = make(
        WireKind::Split,
        &place,
        bid,
        &secret.lanes.as_slice()[0].wire(),
    );
    if !opens(&place, &digests.first, first) || !opens(&next, &digests.second, second) {
        return None;
    }
    Some(confront(secret, 1, first, second).is_none())
}

#[test]
fn a_bidder_holds_the_halves_of_its_own_secret(rt: HostRuntime) {
    assert!(rt; try_halves(&rt, rt.alloc()).is_ok());
}

fn try_halves(rt: &impl Abort, alloc: Global) -> Result<(), NoMemory> {
    let secret = secret_of_five(alloc)?;
    let (first, second) = (opening([0x11; 32], 3), opening([0x22; 32], 2));
    let held = holds_lane_1(&secret, &first, &second);
    assert!(rt; held == Some(true));
    Ok(())
}
