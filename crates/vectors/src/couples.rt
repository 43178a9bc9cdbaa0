// Ranks of men and women: the matchings of which a plan shows that no pair blocks them; and the
// forms by which it shows that of one pair.
ghost use Rattle.std.specs.Prelude.{◌≤◌, length};

use crate::sales::values_of;
use std::alloc::Global;
use vk_cases::{Text, Tried, Unreplayed, number_at};
use vk_matching::{MatchingPlan, propose};
use vk_plan::{Circuit, Plan};
use vk_residue::Residue;

/// The width that the ranks of every table are of.
const WIDTH: u32 = 16;

/// All matchings that are shown of a case of these ranks, in ascending order, and a line where the
/// one that is proposed isn't among them.
pub fn put_table(alloc: Global, text: &mut Text, case: &[u8], ranks: &[u64]) -> Tried<()> {
    let size = number_at(case, 0, 3)? as u32;
    if size == 0 || 3 < size || ranks.len() != (2 * size * size) as usize {
        return Err(Unreplayed::NoCase);
    }
    let proposed = propose(alloc, size, ranks)?;
    put_beside(alloc, text, size, ranks, proposed.as_slice())
}

/// All matchings that are shown, and a line where that one isn't among them.
fn put_beside(
    alloc: Global,
    text: &mut Text,
    size: u32,
    ranks: &[u64],
    proposed: &[u32],
) -> Tried<()>
    requires few { length ranks.now ≤ 18 }
    requires size { size ≤ 3 }
{
    let is_among = put_all(alloc, text, size, ranks, proposed)?;
    text.put(b"\n");
    if !is_among {
        text.put_line(b"another matching is proposed");
    }
    Ok(())
}

/// All matchings that are shown. Whether that one is among them.
fn put_all(
    alloc: Global,
    text: &mut Text,
    size: u32,
    ranks: &[u64],
    proposed: &[u32],
) -> Tried<bool>
    requires few { length ranks.now ≤ 18 }
    requires size { size ≤ 3 }
{
    let mut is_among = false;
    let mut mark: &[u8] = b" | ";
    for number in 0..lists_of(size) {
        let numbers = numbers_of(size, number);
        if is_shown(alloc, ranks, &numbers, size)? {
            is_among = put_women(text, mark, &numbers, proposed) || is_among;
            mark = b" ";
        }
    }
    Ok(is_among)
}

/// How many lists there are of one to three women, each of whom is one of as many.
fn lists_of(size: u32) -> u64 {
    match size {
        1 => 1,
        2 => 4,
        _ => 27,
    }
}

/// The width, and behind it the women of the list of that number, from 0: three of them, of whom
/// the last are left out where there are fewer men.
fn numbers_of(size: u32, number: u64) -> [u64; 4] {
    let women = u64::from(size).max(1);
    let mut numbers = [u64::from(WIDTH); 4];
    let mut unit = lists_of(size);
    for man in 1..4 {
        unit = (unit / women).max(1);
        numbers[man] = number / unit % women + 1;
    }
    numbers
}

/// A mark and the women behind the width, as many as are proposed, with commas between them.
/// Whether they are those that are proposed.
fn put_women(text: &mut Text, mark: &[u8], numbers: &[u64; 4], proposed: &[u32]) -> bool {
    let mut are_same = true;
    let mut mark = mark;
    for man in 0..proposed.len().min(3) {
        let woman = numbers[man + 1];
        text.put_number(mark, woman);
        are_same = are_same && woman == u64::from(proposed[man]);
        mark = b",";
    }
    are_same
}

/// Whether the numbers are a matching's of so many men, and its plan shows of each pair at these
/// ranks that it doesn't block.
fn is_shown(alloc: Global, ranks: &[u64], numbers: &[u64; 4], size: u32) -> Tried<bool>
    requires few { length ranks.now ≤ 18 }
    requires size { size ≤ 3 }
{
    let inputs = ranks.len() as u32;
    match MatchingPlan::from_numbers(alloc, inputs, &numbers[..size as usize + 1])? {
        Some(circuit) => is_shown_by(alloc, &circuit, ranks, pairs_of(size)),
        None => Ok(false),
    }
}

/// How many pairs there are of one of so many men, at most three, and a woman other than his own.
fn pairs_of(size: u32) -> u32
    ensures { result ≤ 6 }
{
    match size {
        2 => 2,
        3 => 6,
        _ => 0,
    }
}

/// Whether the circuit's plan shows of each of so many pairs at these ranks that it doesn't block.
fn is_shown_by(alloc: Global, circuit: &MatchingPlan, ranks: &[u64], pairs: u32) -> Tried<bool>
    requires { pairs ≤ 6 }
{
    let mut ranked = at_ranks(alloc, circuit, ranks)?;
    let are_shown = are_shown(&mut ranked, pairs);
    are_shown
}

/// Whether both forms of each of so many pairs are in their ranges.
fn are_shown(ranked: &mut Ranked, pairs: u32) -> Tried<bool>
    requires { pairs ≤ 6 }
{
    for pair in 0..pairs {
        let forms = forms_of(ranked, WIDTH, pair)?;
        if pair_value(&forms, WIDTH).is_none() {
            return Ok(false);
        }
    }
    Ok(true)
}

/// The case, both forms of its relation where the wire of its own is 0 and where it is 1, and the
/// value of that wire with which both are in their ranges, or `none`.
pub fn put_either(alloc: Global, text: &mut Text, case: &[u8]) -> Tried<()> {
    let width = number_at(case, 0, 16)? as u32;
    let forms = forms_in(alloc, case, width)?;
    text.put(case);
    put_two(text, &forms.zero);
    put_two(text, &forms.one);
    text.put_line(match pair_value(&forms, width) {
        Some(true) => b" | 1",
        Some(false) => b" | 0",
        None => b" | none",
    });
    Ok(())
}

/// The values of two forms.
fn put_two(text: &mut Text, two: &[Residue; 2]) {
    text.put_number(b" | ", two[0].get());
    text.put_number(b" ", two[1].get());
}

/// The forms of the first pair of two men and women whose matching is 2, 1, where the four wires of
/// its relation have the values of the case.
fn forms_in(alloc: Global, case: &[u8], width: u32) -> Tried<Forms>
    requires { width ≤ 16 }
{
    let first = number_at(case, 1, u64::MAX)?;
    let second = number_at(case, 2, u64::MAX)?;
    let third = number_at(case, 3, u64::MAX)?;
    let fourth = number_at(case, 4, u64::MAX)?;
    let ranks = [first, second, 0, 0, third, fourth, 0, 0];
    match MatchingPlan::from_numbers(alloc, 8, &[u64::from(width), 2, 1])? {
        Some(circuit) => forms_by(alloc, &circuit, &ranks, width),
        None => Err(Unreplayed::NoCase),
    }
}

/// The forms of the first pair of the circuit's plan at these ranks.
fn forms_by(alloc: Global, circuit: &MatchingPlan, ranks: &[u64], width: u32) -> Tried<Forms>
    requires { width ≤ 16 }
{
    let mut ranked = at_ranks(alloc, circuit, ranks)?;
    let forms = forms_of(&mut ranked, width, 0);
    forms
}

/// The plan of a matching, and the values of its wires: the ranks, and 0 for each wire that is no
/// input.
#[derive(Drop)]
struct Ranked {
    plan: Plan,
    values: Vec<Residue>,
}

/// The circuit's plan at these ranks.
fn at_ranks(alloc: Global, circuit: &MatchingPlan, ranks: &[u64]) -> Tried<Ranked> {
    let plan = circuit.plan(alloc)?;
    let values = values_of(alloc, ranks, plan.wires())?;
    Ok(Ranked { plan, values })
}

/// The two forms of a pair's relation, where the wire of its own is 0, and where it is 1.
#[derive(Clone, Copy)]
struct Forms {
    zero: [Residue; 2],
    one: [Residue; 2],
}

/// The forms of the relation of a pair, from 0, whose sets are 0.
fn forms_of(ranked: &mut Ranked, width: u32, pair: u32) -> Tried<Forms>
    requires width { width ≤ 16 }
    requires pair { pair ≤ 6 }
{
    let inputs = ranked.plan.inputs();
    if 18 < inputs {
        return Err(Unreplayed::NoCase);
    }
    let wire = ((2 + width) * inputs + pair * (2 * width + 3)) as usize;
    if ranked.values.len() <= wire {
        return Err(Unreplayed::NoCase);
    }
    let row = 2 * inputs + 2 * pair;
    let zero = two_rows(&ranked.plan, row, ranked.values.as_slice())?;
    ranked.values[wire] = Residue::ONE;
    let one = two_rows(&ranked.plan, row, ranked.values.as_slice())?;
    Ok(Forms { zero, one })
}

/// The values of two rows, one behind the other.
fn two_rows(plan: &Plan, first: u32, values: &[Residue]) -> Tried<[Residue; 2]> {
    if plan.rows() < 2 || plan.rows() - 2 < first || values.len() != plan.wires() as usize {
        return Err(Unreplayed::NoCase);
    }
    Ok([
        plan.row(first).value(values),
        plan.row(first + 1).value(values),
    ])
}

/// The value of the wire of its own with which both forms are of one bit more than the width: 1,
/// where there are both.
fn pair_value(forms: &Forms, width: u32) -> Option<bool>
    requires { width ≤ 16 }
{
    let bound = Residue::pow2(width + 1).get();
    if are_below(&forms.one, bound) {
        return Some(true);
    }
    if are_below(&forms.zero, bound) {
        return Some(false);
    }
    None
}

fn are_below(two: &[Residue; 2], bound: u64) -> bool {
    two[0].get() < bound && two[1].get() < bound
}
