// A lane that an independent implementation made: one bid of 5 by seat 7, and a copy of it.
ghost use Rattle.std.specs.Prelude.{◌≡◌};
ghost use Rattle.vk_plan.specs.Forms.{NamesBelow};

use super::numbers::{
    BID, COPY, MINUS_ONE, accepted_halves, case_of_two, difference, half, has_counts, plan_of_two,
    residue,
};
use std::alloc::Global;
use std::process::Abort;
use vk_plan::{Form, Plan, RowTable, WireKind};
use vk_residue::{NoMemory, Residue};
use vk_row::{LaneCase, LaneFault, check, check_lane, check_lane_with, posted};
use vk_wire::{Shown, WireFault};

const POSTED: u64 = 2305843009213693944;

/// What is shown of the lane for the bit.
fn shown_of(bit: bool) -> [Shown; 2] {
    if bit {
        [half(0x22, 2), half(0x44, 2305843009213693946)]
    } else {
        [half(0x11, 3), half(0x33, 10)]
    }
}

#[test]
fn replies_to_a_lane_made_elsewhere_are_checked(rt: HostRuntime) {
    assert!(rt; try_right(&rt, rt.alloc()).is_ok());
    assert!(rt; try_wrong(&rt, rt.alloc()).is_ok());
}

fn try_right(rt: &impl Abort, alloc: Global) -> Result<(), NoMemory> {
    let plan = plan_of_two(alloc, WireKind::Split)?;
    let case = case_of_two(alloc, BID, COPY, POSTED)?;
    try_accepted(rt, alloc, &plan, &case, false, [3, 10]);
    try_accepted(rt, alloc, &plan, &case, true, [2, 2305843009213693946]);
    Ok(())
}

/// With another number posted.
fn try_wrong(rt: &impl Abort, alloc: Global) -> Result<(), NoMemory> {
    let plan = plan_of_two(alloc, WireKind::Split)?;
    let case = case_of_two(alloc, BID, COPY, 7)?;
    let table = RowTable::of(alloc, &plan)?;
    try_refused(rt, alloc, &plan, &table, &case, false);
    try_refused(rt, alloc, &plan, &table, &case, true);
    the_first_wire_that_reads_nothing_is_named(rt, alloc, &plan, &case);
    Ok(())
}

// What is tried borrows the plan and the lane: nothing is dropped where an assertion ends it, and
// so it is proved fast.

/// What is shown for the bit is accepted, with these halves.
fn try_accepted(
    rt: &impl Abort,
    alloc: Global,
    plan: &Plan,
    case: &LaneCase,
    bit: bool,
    expected: [u64; 2],
) {
    let halves = accepted_halves(rt, alloc, plan, case, bit, &shown_of(bit));
    let same = are(halves.as_slice(), expected);
    assert!(rt; same);
}

/// Whether these are two residues of those numbers.
fn are(halves: &[Residue], numbers: [u64; 2]) -> bool {
    match halves {
        [half, other] => [half.get(), other.get()] == numbers,
        _ => false,
    }
}

/// What is shown for the bit doesn't meet the row.
fn try_refused(
    rt: &impl Abort,
    alloc: Global,
    plan: &Plan,
    table: &RowTable,
    case: &LaneCase,
    bit: bool,
)
    requires { table.now ≡ plan.now.rows }
{
    let shown = shown_of(bit);
    assert!(rt; has_counts(plan, case, &shown));
    let refused = check_lane_with(alloc, plan, table, case, bit, &shown).err();
    assert!(rt; refused == Some(LaneFault::Row { row: 0 }));
}

fn the_first_wire_that_reads_nothing_is_named(
    rt: &impl Abort,
    alloc: Global,
    plan: &Plan,
    case: &LaneCase,
) {
    let shown = [half(0x11, 3), half(0x33, 11)];
    assert!(rt; has_counts(plan, case, &shown));
    let refused = check_lane(alloc, plan, case, false, &shown).err();
    let fault = WireFault::Digest { second: false };
    assert!(rt; refused == Some(LaneFault::Wire { wire: 1, fault }));
}

#[test]
fn the_constant_counts_for_bit_1_alone(rt: HostRuntime) {
    assert!(rt; try_constant(&rt, rt.alloc()).is_ok());
}

fn try_constant(rt: &impl Abort, alloc: Global) -> Result<(), NoMemory> {
    let form = difference(alloc, MINUS_ONE)?;
    try_form(rt, &form);
    Ok(())
}

/// 8 - 7 - 1, with the masks 3 and 10.
fn try_form(rt: &impl Abort, form: &Form)
    requires { NamesBelow 2 form.now.terms }
{
    let firsts = [residue(3), residue(10)];
    let seconds = [residue(5), residue(2305843009213693948)];
    let number = residue(POSTED);
    assert!(rt; posted(form, &firsts) == number);
    assert!(rt; check(form, false, &firsts, number));
    assert!(rt; check(form, true, &seconds, number));
    assert!(rt; !check(form, true, &firsts, number));
}
