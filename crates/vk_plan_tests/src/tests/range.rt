ghost use Rattle.std.specs.Prelude.{◌≡◌, ◌≤◌, [], ◌∷◌, All, IsTrue, false, length, IfOk, IfSome};
ghost use Rattle.vk_residue.specs.Residue.{IsResidue};
ghost use Rattle.vk_plan.specs.Plans.{Holds, plan_of_inputs};
ghost use Rattle.vk_range.specs.Sets.{plus};
ghost use Rattle.vk_range.specs.Forms.{difference_form};
ghost use Rattle.vk_range.specs.Ranges.{AreRanges, AreOfWidth};

use super::numbers::{Expected, are, check, have, residue_or_zero};
use std::alloc::Global;
use std::process::Abort;
use vk_plan::{Form, Plan, Relation, Term, add_and_fill};
use vk_range::{Copied, Equal, InRange, Ranges, SelectedIs, SumIs, difference};
use vk_residue::{NoMemory, Residue};
use vk_seq::Seq;

/// The form that is one wire.
fn wire_form(alloc: Global, wire: u32) -> Result<Form, NoMemory>
    ensures { IfOk result (λ form. form ≡ record { terms = plus wire ∷ []; constant = 0 }) }
{
    let mut terms = Vec::new(alloc);
    terms.push(Term {
        wire,
        factor: Residue::ONE,
    })?;
    Ok(Form {
        terms: Seq::from_vec(terms),
        constant: Residue::ZERO,
    })
}

fn three_wires(alloc: Global) -> Result<Seq<u32>, NoMemory>
    ensures { IfOk result (λ wires. wires ≡ 0 ∷ 1 ∷ 2 ∷ []) }
{
    let wires = Vec::from_array(alloc, [0, 1, 2])?;
    Ok(Seq::from_vec(wires))
}

/// The number, and behind it the values of the pairs of its range. None where it is not of the
/// width.
fn range_values(alloc: Global, width: u32, number: u64) -> Result<Option<Vec<Residue>>, NoMemory>
    requires some { 1 ≤ width }
    requires most { width ≤ 40 }
{
    let relation = InRange {
        form: wire_form(alloc, 0)?,
        width,
    };
    let mut values = Vec::new(alloc);
    values.push(residue_or_zero(number))?;
    if relation.form.value(values.as_slice()).get() >= Residue::pow2(width).get() {
        return Ok(None);
    }
    relation.fill(&mut values)?;
    Ok(Some(values))
}

/// The values of the first wires and what was filled in behind them; none where this can't be; or
/// want of memory.
type Filled = Result<Option<Vec<Residue>>, NoMemory>;

/// Whether all values are these numbers.
fn is_filled(filled: Filled, numbers: &[u64]) -> bool {
    match filled {
        Ok(Some(values)) => are(values.as_slice(), numbers),
        _ => false,
    }
}

/// Whether the values from that place on begin with these numbers.
fn is_filled_from(filled: Filled, from: usize, numbers: &[u64]) -> bool {
    match filled {
        Ok(Some(values)) => have(values.as_slice(), from, numbers),
        _ => false,
    }
}

fn is_not_filled(filled: Filled) -> bool {
    matches!(filled, Ok(None))
}

/// How many values there are, 0 where there are none.
fn count_of(filled: Filled) -> usize {
    match filled {
        Ok(Some(values)) => values.len(),
        _ => 0,
    }
}

#[test]
fn a_range_is_filled_at_its_ends(rt: HostRuntime) {
    let alloc = rt.alloc();
    assert!(rt; is_filled(range_values(alloc, 1, 0), &[0; 2]));
    assert!(rt; is_filled(range_values(alloc, 1, 1), &[1; 2]));
    assert!(rt; is_filled(range_values(alloc, 4, 0), &[0; 5]));
    assert!(rt; is_filled(range_values(alloc, 4, 15), &[15, 1, 2, 4, 8]));
    assert!(rt; is_filled(range_values(alloc, 40, 0), &[0; 41]));
    assert!(rt; count_of(range_values(alloc, 40, 1099511627775)) == 41);
    assert!(rt; is_filled_from(range_values(alloc, 40, 1099511627775), 40, &[549755813888]));
    assert!(rt; is_not_filled(range_values(alloc, 40, 1099511627776)));
}

/// Three numbers, and behind them the selectors against a value at width 4 and their sets. None
/// where no place may be selected.
fn selection_of(alloc: Global, numbers: [u64; 3], value: u64) -> Filled {
    let [first, second, third] = numbers;
    let mut values = Vec::new(alloc);
    values.push(residue_or_zero(first))?;
    values.push(residue_or_zero(second))?;
    values.push(residue_or_zero(third))?;
    let relation = SelectedIs {
        wires: three_wires(alloc)?,
        value: residue_or_zero(value),
        width: 4,
    };
    if relation.first_place(values.as_slice()) >= 3 {
        return Ok(None);
    }
    relation.fill(&mut values)?;
    Ok(Some(values))
}

/// Whether the selectors are these.
fn selects(alloc: Global, numbers: [u64; 3], value: u64, selectors: &[u64; 3]) -> bool {
    is_filled_from(selection_of(alloc, numbers, value), 3, selectors)
}

#[test]
fn the_first_place_that_serves_is_selected(rt: HostRuntime) {
    let alloc = rt.alloc();
    assert!(rt; selects(alloc, [9, 7, 4], 9, &[1, 0, 0]));
    assert!(rt; selects(alloc, [7, 9, 4], 9, &[0, 1, 0]));
    assert!(rt; selects(alloc, [7, 4, 9], 9, &[0, 0, 1]));
    assert!(rt; selects(alloc, [7, 9, 9], 9, &[0, 1, 0]));
    assert!(rt; is_not_filled(selection_of(alloc, [3, 4, 5], 9)));
    let sets = [9, 7, 4, 1, 0, 0, 0, 0, 0, 0, 1, 0, 4, 8, 0, 2, 0, 8];
    assert!(rt; is_filled(selection_of(alloc, [9, 7, 4], 9), &sets));
}

/// Two inputs that are 5 and equal, and then a row that the second is 0: how many wires, rows and
/// values there are, and how many rows then.
fn equal_wires(alloc: Global) -> Result<(u32, u32, usize, u32), NoMemory> {
    let mut plan = Plan::new(alloc, 2)?;
    let five = residue_or_zero(5);
    let _bound = five.get();
    let mut values = Vec::from_array(alloc, [five, five])?;
    add_and_fill(alloc, &Equal { left: 0, right: 1 }, &mut plan, &mut values)?;
    let (wires, rows) = (plan.wires(), plan.rows());
    let form = wire_form(alloc, 1)?;
    SumIs { form }.add(alloc, &mut plan)?;
    Ok((wires, rows, values.len(), plan.rows()))
}

#[test]
fn equal_wires_hold(rt: HostRuntime) {
    assert!(rt; matches!(equal_wires(rt.alloc()), Ok((2, 1, 2, 2))));
}

fn five_wires(alloc: Global) -> Result<Seq<u32>, NoMemory>
    ensures { IfOk result (λ wires. wires ≡ 0 ∷ 1 ∷ 2 ∷ 3 ∷ 4 ∷ []) }
{
    let wires = Vec::from_array(alloc, [0, 1, 2, 3, 4])?;
    Ok(Seq::from_vec(wires))
}

/// The numbers as residues.
fn five_values(alloc: Global, numbers: [u64; 5]) -> Result<Vec<Residue>, NoMemory>
    ensures five { IfOk result (λ values. length values.items ≡ 5) }
    ensures residues { IfOk result (λ values. All IsResidue values.items) }
{
    let mut values = Vec::new(alloc);
    for number in numbers {
        values.push(residue_or_zero(number))?;
    }
    Ok(values)
}

/// A plan and the values of its wires; none where what it says isn't true of them; or want of
/// memory.
type Made = Result<Option<(Plan, Vec<Residue>)>, NoMemory>;

/// The plan and the values are as expected.
fn check_made(rt: &impl Abort, made: Made, expected: &Expected<'_>) {
    match made {
        Ok(Some((plan, values))) => check(rt, &plan, values.as_slice(), expected),
        _ => panic!(rt; "not made"),
    }
}

fn is_refused(made: Made) -> bool {
    matches!(made, Ok(None))
}

/// Five inputs, of which the second and the last are equal, and their values. None where they are
/// not.
fn equal_inputs(alloc: Global, numbers: [u64; 5]) -> Made
    ensures holds { IfOk result (λ found. IfSome found (λ made. Holds made.0 made.1.items)) }
{
    let mut plan = Plan::new(alloc, 5)?;
    let mut values = five_values(alloc, numbers)?;
    if values[1] != values[4] {
        return Ok(None);
    }
    add_and_fill(alloc, &Equal { left: 1, right: 4 }, &mut plan, &mut values)?;
    Ok(Some((plan, values)))
}

/// Five inputs and a copy of the fourth, and their values.
fn copied_input(alloc: Global, numbers: [u64; 5]) -> Made
    ensures holds { IfOk result (λ found. IfSome found (λ made. Holds made.0 made.1.items)) }
{
    let mut plan = Plan::new(alloc, 5)?;
    let mut values = five_values(alloc, numbers)?;
    add_and_fill(alloc, &Copied { wire: 3 }, &mut plan, &mut values)?;
    Ok(Some((plan, values)))
}

/// Five inputs, of which one is selected against a value at width 8, and the values of all wires.
/// None where no place may be selected.
fn selected_input(alloc: Global, numbers: [u64; 5], value: u64) -> Made
    ensures holds { IfOk result (λ found. IfSome found (λ made. Holds made.0 made.1.items)) }
{
    let mut plan = Plan::new(alloc, 5)?;
    let mut values = five_values(alloc, numbers)?;
    let relation = SelectedIs {
        wires: five_wires(alloc)?,
        value: residue_or_zero(value),
        width: 8,
    };
    if relation.first_place(values.as_slice()) >= 5 {
        return Ok(None);
    }
    add_and_fill(alloc, &relation, &mut plan, &mut values)?;
    Ok(Some((plan, values)))
}

/// The first wire, the second, and the third less the fourth, each of width 3.
fn three_ranges(alloc: Global) -> Result<Ranges, NoMemory>
    ensures { IfOk result (λ ranges. ranges ≡ record {
      forms = record { terms = plus 0 ∷ []; constant = 0 } ∷ record { terms = plus 1 ∷ []; constant = 0 } ∷ difference_form 2 3 false ∷ [];
      width = 3;
    }) }
{
    let mut forms = Vec::new(alloc);
    forms.push(wire_form(alloc, 0)?)?;
    forms.push(wire_form(alloc, 1)?)?;
    forms.push(difference(alloc, 2, 3, false)?)?;
    Ok(Ranges {
        forms: Seq::from_vec(forms),
        width: 3,
    })
}

/// Whether each form is of the width.
fn are_of_width(ranges: &Ranges, values: &[Residue]) -> bool
    requires { AreRanges ranges.now (length values.now) }
    ensures { IsTrue result → AreOfWidth ranges.now values.now }
{
    for form in ranges.forms.as_slice() {
        if form.value(values).get() >= Residue::pow2(ranges.width).get() {
            return false;
        }
    }
    true
}

/// Five inputs with these ranges, and the values of all wires. None where a form is not of the
/// width.
fn ranged_inputs(alloc: Global, numbers: [u64; 5]) -> Made
    ensures holds { IfOk result (λ found. IfSome found (λ made. Holds made.0 made.1.items)) }
{
    let mut plan = Plan::new(alloc, 5)?;
    let mut values = five_values(alloc, numbers)?;
    let ranges = three_ranges(alloc)?;
    if !are_of_width(&ranges, values.as_slice()) {
        return Ok(None);
    }
    add_and_fill(alloc, &ranges, &mut plan, &mut values)?;
    Ok(Some((plan, values)))
}

#[test]
fn three_forms_of_width_3_are_filled(rt: HostRuntime) {
    let alloc = rt.alloc();
    // 5 = 1 + 4, 2 = 2, and 9 - 6 = 3 = 1 + 2
    let expected = Expected {
        wires: 14,
        rows: 3,
        from: 0,
        values: &[5, 2, 9, 6, 70, 1, 0, 4, 0, 2, 0, 1, 2, 0],
    };
    check_made(&rt, ranged_inputs(alloc, [5, 2, 9, 6, 70]), &expected);
    assert!(rt; is_refused(ranged_inputs(alloc, [5, 8, 9, 6, 70])));
    assert!(rt; is_refused(ranged_inputs(alloc, [5, 2, 6, 9, 70])));
}

#[test]
fn five_wires_of_width_8_are_filled(rt: HostRuntime) {
    try_equal(&rt, rt.alloc());
    try_copied(&rt, rt.alloc());
    try_selected(&rt, rt.alloc());
}

const NUMBERS: [u64; 5] = [200, 13, 250, 250, 13];

fn try_equal(rt: &impl Abort, alloc: Global) {
    let expected = Expected {
        wires: 5,
        rows: 1,
        from: 0,
        values: &NUMBERS,
    };
    check_made(rt, equal_inputs(alloc, NUMBERS), &expected);
    assert!(rt; is_refused(equal_inputs(alloc, [200, 13, 250, 250, 7])));
}

fn try_copied(rt: &impl Abort, alloc: Global) {
    let expected = Expected {
        wires: 6,
        rows: 1,
        from: 5,
        values: &[250],
    };
    check_made(rt, copied_input(alloc, NUMBERS), &expected);
}

fn try_selected(rt: &impl Abort, alloc: Global) {
    let expected = Expected {
        wires: 50,
        rows: 6,
        from: 0,
        values: &[
            200, 13, 250, 250, 13, 0, 0, 1, 0, 0, 1, 0, 4, 8, 0, 0, 64, 128, 0, 2, 0, 0, 16, 0, 0,
            0, 0, 0, 0, 0, 0, 0, 0, 0, 1, 2, 4, 8, 16, 32, 64, 128, 0, 2, 0, 0, 16, 0, 0, 0,
        ],
    };
    check_made(rt, selected_input(alloc, NUMBERS, 250), &expected);
}
