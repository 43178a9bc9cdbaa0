// Five bids for two equal units, as they are sold, and with a winner published in another's place.
use super::numbers::row_on;
use std::alloc::Global;
use std::panic::Expect;
use std::process::Abort;
use vk_plan::{Circuit, Plan};
use vk_residue::NoMemory;
use vk_uniform::{UniformOutcome, UniformPlan, uniform};

/// The plan of five inputs at these numbers, which are within the limits.
fn plan_at(rt: &impl Abort, alloc: Global, numbers: &[u64]) -> Result<Plan, NoMemory> {
    let circuit = UniformPlan::from_numbers(alloc, 5, numbers)?.expect(rt, "within the limits");
    let plan = circuit.plan(alloc)?;
    Ok(plan)
}

/// How many wires and rows the plan has, and what its row 14 comes to where the inputs and their
/// copies have these values, and the other wires 0.
fn found_at(rt: &impl Abort, alloc: Global, numbers: &[u64]) -> Result<(u32, u32, u64), NoMemory> {
    let plan = plan_at(rt, alloc, numbers)?;
    let row = row_on(&plan, 14, &[7, 9, 9, 4, 9, 7, 9, 9, 4, 9]);
    Ok((plan.wires(), plan.rows(), row))
}

#[test]
fn two_units_go_to_the_first_of_equal_bids(rt: HostRuntime) {
    assert!(rt; try_sale(&rt, rt.alloc()).is_ok());
    assert!(rt; matches!(found_at(&rt, rt.alloc(), &[4, 9, 2, 3]), Ok((81, 23, _))));
    assert!(rt;
        matches!(
            UniformPlan::from_numbers(rt.alloc(), 5, &[4, 9, 3, 2]),
            Ok(None)
        )
    );
}

fn try_sale(rt: &impl Abort, alloc: Global) -> Result<(), NoMemory> {
    let sold = uniform(alloc, &[7, 9, 9, 4, 9], 2)?;
    check_sale(rt, &sold);
    Ok(())
}

fn check_sale(rt: &impl Abort, sold: &UniformOutcome) {
    assert!(rt; sold.winners.as_slice() == [2, 3].as_slice());
    assert!(rt; sold.price == 9);
}

#[test]
fn another_of_equal_bids_leaves_a_form_out_of_range(rt: HostRuntime) {
    let found = found_at(&rt, rt.alloc(), &[4, 9, 2, 5]);
    assert!(rt; matches!(found, Ok((81, 23, 2305843009213693950))));
}
