ghost use Rattle.std.specs.Prelude.{◌≡◌, ◌+◌, ◌<◌, ◌≤◌, ◌++◌, [], ◌∷◌, length, take, IfOk, OnOk, OnErr};
ghost use Rattle.vk_plan.specs.Plans.{IsPlan, extended};
ghost use Rattle.vk_range.specs.Sets.{test_set, minus_set, set_row, bit_part, bit_parts, plus, minus};
ghost use Rattle.vk_range.specs.Forms.{difference_form, less_one};
ghost use Rattle.vk_range.specs.Selected.{ones};

use std::alloc::Global;
use vk_plan::{Form, Plan, Term, WireKind};
use vk_residue::{NoMemory, Residue};
use vk_seq::Seq;

/// The greatest number of the width, 1 to 40.
pub(crate) fn all_ones(width: u32) -> Residue
    requires { width ≤ 40 }
    ensures { result ≡ ones width }
{
    Residue::pow2(width).sub(Residue::ONE)
}

/// The wire as it is.
pub(crate) fn plus_wire(wire: u32) -> Term
    ensures { result ≡ plus wire }
{
    Term {
        wire,
        factor: Residue::ONE,
    }
}

/// The wire taken off.
pub(crate) fn minus_wire(wire: u32) -> Term
    ensures { result ≡ minus wire }
{
    Term {
        wire,
        factor: Residue::ONE.neg(),
    }
}

/// Minus 1 where strict, else 0.
pub(crate) fn constant_of(strict: bool) -> Residue
    ensures { result ≡ less_one strict }
{
    if strict {
        Residue::ONE.neg()
    } else {
        Residue::ZERO
    }
}

/// The wire times the factor, plus the constant.
pub fn one_term(
    alloc: Global,
    wire: u32,
    factor: Residue,
    constant: Residue,
) -> Result<Form, NoMemory>
    ensures { IfOk result (λ form. form
        ≡ record { terms = record { wire = wire; factor = factor } ∷ []; constant = constant }) }
{
    let mut terms = Vec::new(alloc);
    terms.push(Term { wire, factor })?;
    Ok(Form {
        terms: Seq::from_vec(terms),
        constant,
    })
}

/// Left less right, less 1 where strict.
pub fn difference(alloc: Global, left: u32, right: u32, strict: bool) -> Result<Form, NoMemory>
    ensures { IfOk result (λ form. form ≡ difference_form left right strict) }
{
    let mut terms = Vec::new(alloc);
    terms.push(plus_wire(left))?;
    terms.push(minus_wire(right))?;
    Ok(Form {
        terms: Seq::from_vec(terms),
        constant: constant_of(strict),
    })
}

/// The pairs of the weights 2^0 to 2^(width - 1).
fn pairs(alloc: Global, width: u32) -> Result<Vec<WireKind>, NoMemory>
    ensures { IfOk result (λ kinds. kinds.items ≡ test_set width) }
{
    let mut kinds = Vec::new(alloc);
    for i in 0..width {
        kinds.push(WireKind::Pair(i))?;
    }
    Ok(kinds)
}

/// The form minus each pair of the set that begins at that wire.
fn row_of_set(alloc: Global, form: &Form, start: u32, width: u32) -> Result<Form, NoMemory>
    requires { start + width < 4294967296 }
    ensures { IfOk result (λ row. row ≡ set_row form.now start width) }
{
    let mut terms = Vec::from_slice(alloc, form.terms.as_slice())?;
    for i in 0..width {
        terms.push(minus_wire(start + i))?;
    }
    Ok(Form {
        terms: Seq::from_vec(terms),
        constant: form.constant,
    })
}

/// Appends a test set and the row that makes the form its sum. After a refusal the plan is as
/// before.
pub(crate) fn add_set(
    alloc: Global,
    plan: &mut Plan,
    form: &Form,
    width: u32,
) -> Result<(), NoMemory>
    requires width { width ≤ 40 }
    requires room { IsPlan (extended plan.old (test_set width)
        (set_row form.now (length plan.old.kinds) width ∷ [])) }
    ensures added { OnOk result
        (plan.new ≡ extended plan.old (test_set width)
        (set_row form.now (length plan.old.kinds) width ∷ [])) }
    ensures as_before { OnErr result (plan.new ≡ plan.old) }
{
    let start = plan.wires();
    let kinds = pairs(alloc, width)?;
    let row = row_of_set(alloc, form, start, width)?;
    plan.append(kinds.as_slice(), Some(row))?;
    Ok(())
}

/// The weight 2^i where that bit of the number is set, else 0.
fn part(number: Residue, i: u32) -> Residue
    requires { i < 61 }
    ensures { result ≡ bit_part number i }
{
    if (number.get() >> i) % 2 == 1 {
        Residue::pow2(i)
    } else {
        Residue::ZERO
    }
}

/// Appends the values of a test set that come to the number. After a refusal the values are as
/// before.
pub(crate) fn push_parts(
    values: &mut Vec<Residue>,
    number: Residue,
    width: u32,
) -> Result<(), NoMemory>
    requires { width ≤ 40 }
    ensures pushed { OnOk result (values.new.items ≡ values.old.items ++ bit_parts number width) }
    ensures as_before { OnErr result (values.new.items ≡ values.old.items) }
{
    let before = values.len();
    for i in 0..width {
        push_or_cut(values, before, part(number, i))?;
    }
    Ok(())
}

/// Appends one value. After a refusal the first so many values are left.
pub(crate) fn push_or_cut(
    values: &mut Vec<Residue>,
    count: usize,
    value: Residue,
) -> Result<(), NoMemory>
    requires { count ≤ length values.old.items }
    ensures pushed { OnOk result (values.new.items ≡ values.old.items ++ value ∷ []) }
    ensures cut { OnErr result (values.new.items ≡ take count values.old.items) }
{
    if let Err(_refused) = values.push(value) {
        values.truncate(count);
        return Err(NoMemory);
    }
    Ok(())
}
