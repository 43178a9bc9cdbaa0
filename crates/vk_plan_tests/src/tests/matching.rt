// Two men and two women, as they are matched, and as a pair blocks it.
ghost use Rattle.std.specs.Prelude.{◌*◌, ◌≡◌, ◌<◌, ◌≤◌, ◌^◌, ◌∷◌, All, length, IfOk};
ghost use Rattle.vk_matching.specs.MatchingPlans.{IsMatchingClaim};

use super::numbers::{Expected, inputs_of, row_on, try_circuit};
use std::alloc::Global;
use std::panic::Expect;
use std::process::Abort;
use vk_matching::{MatchingPlan, propose};
use vk_plan::{Circuit, Plan};
use vk_residue::{NoMemory, Residue};

/// Both men rank woman 1 better; woman 1 ranks man 2 better, and woman 2 man 1.
const RANKS: [u64; 8] = [0, 1, 0, 1, 1, 0, 0, 1];

/// What is published of the matching that is proposed of ranks of this width.
fn numbers_of(alloc: Global, size: u32, width: u32, ranks: &[u64]) -> Result<Vec<u64>, NoMemory>
    requires some { 1 ≤ size }
    requires few { size ≤ 16 }
    requires all_ranks { length ranks.now ≡ 2 * size * size }
    requires within { All (λ rank. rank < 2 ^ width) ranks.now }
    ensures { IfOk result (λ numbers. IsMatchingClaim (length ranks.now) numbers.items ranks.now) }
{
    let matching = propose(alloc, size, ranks)?;
    let numbers = listed(alloc, width, matching.as_slice())?;
    Ok(numbers)
}

/// The width, and behind it these women.
fn listed(alloc: Global, width: u32, women: &[u32]) -> Result<Vec<u64>, NoMemory>
    ensures { IfOk result (λ numbers. numbers.items ≡ width ∷ women.now) }
{
    let mut numbers = vec![in alloc; u64::from(width)]?;
    for &woman in women {
        numbers.push(u64::from(woman))?;
    }
    Ok(numbers)
}

/// The matching that is proposed is shown of the ranks, and its plan and values are as expected.
fn try_ranks(
    rt: &impl Abort,
    alloc: Global,
    ranks: &[u64],
    size: u32,
    width: u32,
    expected: &Expected<'_>,
) -> Result<(), NoMemory>
    requires some { 1 ≤ size }
    requires few { size ≤ 16 }
    requires all_ranks { length ranks.now ≡ 2 * size * size }
    requires most_width { width ≤ 16 }
{
    let inputs = inputs_of(alloc, ranks, width)?.expect(rt, "of the width");
    let numbers = numbers_of(alloc, size, width, ranks)?;
    try_claim(rt, alloc, inputs.as_slice(), numbers.as_slice(), expected)
}

fn try_claim(
    rt: &impl Abort,
    alloc: Global,
    inputs: &[Residue],
    numbers: &[u64],
    expected: &Expected<'_>,
) -> Result<(), NoMemory>
    requires few { length inputs.now ≤ 512 }
    requires claim { IsMatchingClaim (length inputs.now) numbers.now inputs.now }
{
    match MatchingPlan::from_numbers(alloc, inputs.len() as u32, numbers)? {
        Some(circuit) => try_circuit(rt, alloc, &circuit, inputs, expected),
        None => panic!(rt; "within the limits"),
    }
}

#[test]
fn a_pair_of_a_stable_matching_is_shown_by_either_of_them(rt: HostRuntime) {
    assert!(rt; is_proposed(rt.alloc(), &[2, 1]));
    let expected = Expected {
        wires: 46,
        rows: 20,
        from: 32,
        values: &[0, 1, 2, 0, 1, 0, 0, 1, 1, 0, 0, 1, 0, 4],
    };
    assert!(rt; try_ranks(&rt, rt.alloc(), &RANKS, 2, 2, &expected).is_ok());
}

fn is_proposed(alloc: Global, women: &[u32]) -> bool {
    match propose(alloc, 2, &RANKS) {
        Ok(matching) => matching.as_slice() == women,
        Err(_) => false,
    }
}

const RANKS_AND_COPIES: [u64; 16] = [0, 1, 0, 1, 1, 0, 0, 1, 0, 1, 0, 1, 1, 0, 0, 1];

/// The plan by which the other matching would be shown of the ranks.
fn blocked(rt: &impl Abort, alloc: Global) -> Result<Plan, NoMemory> {
    let circuit = MatchingPlan::from_numbers(alloc, 8, &[2, 1, 2])?.expect(rt, "within the limits");
    let plan = circuit.plan(alloc)?;
    Ok(plan)
}

/// How many wires and rows it has, and what the rows of the pair come to: the one where the first
/// of them is the nearer, and the other where the second is.
fn blocked_rows(rt: &impl Abort, alloc: Global) -> Result<(u32, u32, u64, u64), NoMemory> {
    let plan = blocked(rt, alloc)?;
    let last = row_on(&plan, 19, &RANKS_AND_COPIES);
    let mut chosen = [0; 40];
    chosen[..16].copy_from_slice(&RANKS_AND_COPIES);
    chosen[39] = 1;
    Ok((plan.wires(), plan.rows(), last, row_on(&plan, 18, &chosen)))
}

#[test]
fn a_pair_that_blocks_leaves_a_form_out_of_range(rt: HostRuntime) {
    let found = blocked_rows(&rt, rt.alloc());
    assert!(rt;
        matches!(
            found,
            Ok((46, 20, 2305843009213693950, 2305843009213693950))
        )
    );
}
