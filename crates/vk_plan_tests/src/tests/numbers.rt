// What several of these tests make and compare: residues, bids as inputs, and plans with the values
// of their wires.
ghost use Rattle.std.specs.Prelude.{◌≡◌, ◌<◌, ◌≤◌, ◌^◌, All, IfOk, IfSome, length};

use std::alloc::Global;
use std::process::Abort;
use vk_plan::{Circuit, Plan};
use vk_residue::{NoMemory, Residue};

/// The residue of a number, 0 where it is not below the modulus.
pub fn residue_or_zero(number: u64) -> Residue {
    Residue::new(number).unwrap_or(Residue::ZERO)
}

/// Whether the values are these numbers.
pub fn are(values: &[Residue], numbers: &[u64]) -> bool {
    if values.len() != numbers.len() {
        return false;
    }
    for place in 0..values.len() {
        if values[place].get() != numbers[place] {
            return false;
        }
    }
    true
}

/// The bids as residues. None where one is not of the width.
pub fn inputs_of(alloc: Global, bids: &[u64], width: u32) -> Result<Option<Vec<Residue>>, NoMemory>
    requires { width ≤ 40 }
    ensures same { IfOk result (λ made. IfSome made (λ inputs. inputs.items ≡ bids.now)) }
    ensures within { IfOk result
        (λ made. IfSome made (λ inputs. All (λ bid. bid < 2 ^ width) bids.now)) }
{
    let mut inputs = Vec::new(alloc);
    for bid in bids {
        if *bid >= Residue::pow2(width).get() {
            return Ok(None);
        }
        inputs.push(Residue::new(*bid).unwrap_or(Residue::ZERO))?;
    }
    Ok(Some(inputs))
}

/// Whether each row of the plan is 0 on the values.
fn rows_are_zero(plan: &Plan, values: &[Residue]) -> bool
    requires { length values.now ≡ length plan.now.kinds }
{
    for row in 0..plan.rows() {
        if plan.row(row).value(values) != Residue::ZERO {
            return false;
        }
    }
    true
}

/// What a plan and the values of its wires are to be: so many wires and rows, and from that wire on
/// these values.
#[derive(Clone, Copy)]
pub struct Expected<'a> {
    pub wires: u32,
    pub rows: u32,
    pub from: usize,
    pub values: &'a [u64],
}

/// The values are one for each wire, each row is 0 on them, and all is as it is expected. What is
/// tried is borrowed: nothing is dropped where an assertion ends it, and so it is proved fast.
pub fn check(rt: &impl Abort, plan: &Plan, values: &[Residue], expected: &Expected<'_>) {
    assert!(rt; plan.wires() == expected.wires);
    assert!(rt; plan.rows() == expected.rows);
    assert!(rt; values.len() == plan.wires() as usize);
    assert!(rt; rows_are_zero(plan, values));
    assert!(rt; have(values, expected.from, expected.values));
}

/// Whether the values from that place on begin with these numbers.
pub fn have(values: &[Residue], from: usize, numbers: &[u64]) -> bool {
    match values.get(from..) {
        Some(rest) => match rest.get(..numbers.len()) {
            Some(part) => are(part, numbers),
            None => false,
        },
        None => false,
    }
}

/// The plan of the circuit and the values that it is filled with are as they are expected.
pub fn try_circuit<C: Circuit>(
    rt: &impl Abort,
    alloc: Global,
    circuit: &C,
    inputs: &[Residue],
    expected: &Expected<'_>,
) -> Result<(), NoMemory>
    requires { C.claim circuit.now inputs.now }
{
    let plan = circuit.plan(alloc)?;
    let values = circuit.fill(alloc, inputs)?;
    check(rt, &plan, values.as_slice(), expected);
    Ok(())
}

/// What a row comes to where the first wires have these values and the others have 0; 0 where the
/// plan has no such row, or more than 81 wires.
pub fn row_on(plan: &Plan, row: u32, numbers: &[u64]) -> u64
    requires { length numbers.now ≤ 81 }
{
    let wires = plan.wires() as usize;
    if wires > 81 || row >= plan.rows() {
        return 0;
    }
    let values = padded(numbers);
    plan.row(row).value(&values[..wires]).get()
}

/// The numbers as residues, with zeros behind them.
fn padded(numbers: &[u64]) -> [Residue; 81]
    requires { length numbers.now ≤ 81 }
{
    let mut values = [Residue::ZERO; 81];
    for place in 0..numbers.len() {
        values[place] = residue_or_zero(numbers[place]);
    }
    values
}
