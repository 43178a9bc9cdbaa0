// Outcomes of many lists of bids are replayed by the program `vectors`.
ghost use Rattle.std.specs.Prelude.{◌≤◌, length};

use super::numbers::{Expected, inputs_of, row_on, try_circuit};
use std::alloc::Global;
use std::panic::Expect;
use std::process::Abort;
use vk_plan::{Circuit, Plan};
use vk_residue::NoMemory;
use vk_vickrey::{VickreyOutcome, VickreyPlan, outcome};

/// The circuit of so many seals, of which the one at that position wins at this price.
fn published(seals: u32, width: u32, position: u32, price: u64) -> Option<VickreyPlan> {
    VickreyPlan::new(seals, width, VickreyOutcome { position, price })
}

/// Whether there is one.
fn may_be(seals: u32, width: u32, position: u32, price: u64) -> bool {
    published(seals, width, position, price).is_some()
}

#[test]
fn numbers_past_their_limits_are_refused(rt: HostRuntime) {
    assert!(rt; may_be(1, 1, 1, 0));
    assert!(rt; may_be(64, 40, 64, 1099511627775));
    assert!(rt; !may_be(0, 4, 1, 0));
    assert!(rt; !may_be(65, 4, 1, 0));
    assert!(rt; !may_be(2, 0, 1, 0));
    assert!(rt; !may_be(2, 41, 1, 0));
    assert!(rt; !may_be(2, 4, 0, 3));
    assert!(rt; !may_be(2, 4, 3, 3));
    assert!(rt; !may_be(2, 4, 1, 16));
    assert!(rt; !may_be(1, 4, 1, 1));
}

/// Its plan.
fn plan_of(
    rt: &impl Abort,
    alloc: Global,
    seals: u32,
    width: u32,
    position: u32,
    price: u64,
) -> Result<Plan, NoMemory> {
    let circuit = published(seals, width, position, price).expect(rt, "within the limits");
    let plan = circuit.plan(alloc)?;
    Ok(plan)
}

/// The plan has so many wires and rows.
fn check_counts(
    rt: &impl Abort,
    plan: Result<Plan, NoMemory>,
    wires: u32,
    rows: u32,
) -> Result<(), NoMemory> {
    let plan = plan?;
    assert!(rt; plan.wires() == wires);
    assert!(rt; plan.rows() == rows);
    Ok(())
}

#[test]
fn plans_have_their_wires_and_rows(rt: HostRuntime) {
    let least = plan_of(&rt, rt.alloc(), 1, 1, 1, 0);
    assert!(rt; check_counts(&rt, least, 3, 2).is_ok());
    let small = plan_of(&rt, rt.alloc(), 4, 4, 2, 9);
    assert!(rt; check_counts(&rt, small, 63, 18).is_ok());
    let most = plan_of(&rt, rt.alloc(), 64, 40, 1, 1099511627775);
    assert!(rt; check_counts(&rt, most, 10311, 318).is_ok());
}

#[test]
fn a_wrong_outcome_leaves_a_form_out_of_range(rt: HostRuntime) {
    assert!(rt; try_wrong(&rt, rt.alloc()).is_ok());
}

fn try_wrong(rt: &impl Abort, alloc: Global) -> Result<(), NoMemory> {
    let plan = plan_of(rt, alloc, 2, 4, 1, 3)?;
    check_wrong(rt, &plan);
    Ok(())
}

fn check_wrong(rt: &impl Abort, plan: &Plan) {
    assert!(rt; plan.wires() == 25);
    assert!(rt; plan.rows() == 8);
    assert!(rt; row_on(plan, 4, &[3, 5, 3, 5]) == 2305843009213693949);
}

/// The plan of the bids at their outcome, and the honest values of all wires, which hold for it,
/// are as expected.
fn try_bids(
    rt: &impl Abort,
    alloc: Global,
    bids: &[u64],
    width: u32,
    expected: &Expected<'_>,
) -> Result<(), NoMemory>
    requires some { 1 ≤ length bids.now }
    requires most { length bids.now ≤ 64 }
    requires width { width ≤ 40 }
{
    let inputs = inputs_of(alloc, bids, width)?.expect(rt, "of the width");
    let circuit = VickreyPlan::new(bids.len() as u32, width, outcome(bids)).expect(
        rt,
        "within the limits",
    );
    try_circuit(rt, alloc, &circuit, inputs.as_slice(), expected)
}

#[test]
fn honest_values_are_bids_bits_and_a_selector(rt: HostRuntime) {
    let expected = Expected {
        wires: 63,
        rows: 18,
        from: 0,
        values: &[
            7, 9, 9, 4, 7, 9, 9, 4, 1, 2, 4, 0, 1, 0, 0, 8, 1, 0, 0, 8, 0, 0, 4, 0, 1, 0, 0, 0, 0,
            0, 0, 0, 1, 0, 4, 0, 0, 2, 0, 0, 0, 0, 0, 0, 1, 0, 4, 0, 0, 1, 0, 1, 0, 4, 8, 0, 0, 0,
            0, 0, 2, 0, 8,
        ],
    };
    assert!(rt; try_bids(&rt, rt.alloc(), &[7, 9, 9, 4], 4, &expected).is_ok());
}

#[test]
fn five_bids_and_one_bid_of_width_8_hold(rt: HostRuntime) {
    let five = Expected {
        wires: 150,
        rows: 23,
        from: 114,
        values: &[0, 0, 1, 0],
    };
    assert!(rt; try_bids(&rt, rt.alloc(), &[200, 13, 250, 250, 13], 8, &five).is_ok());
    let one = Expected {
        wires: 10,
        rows: 2,
        from: 0,
        values: &[200, 200, 0, 0, 0, 8, 0, 0, 64, 128],
    };
    assert!(rt; try_bids(&rt, rt.alloc(), &[200], 8, &one).is_ok());
}
