ghost use Rattle.std.specs.Prelude.{◌≡◌, ◌<◌, ◌≤◌, ◌↔◌, ◌⊎◌, [], ◌∷◌, ℕ, List, length, slice_index, IfOk};
ghost use Rattle.vk_plan.specs.Forms.{form_value};
ghost use Rattle.vk_matching.specs.Eithers.{IsEither, IsEitherAtLeast, e_value, is_one, shifted_form, paired_ranges, ranges_at, either_wires, either_rows, either_values};
ghost use Rattle.vk_matching.specs.EitherLaws.{AreSmall, either_sound, either_complete};

use std::alloc::Global;
use vk_plan::{Form, Plan, Relation, Term, WireKind, sum_of_terms};
use vk_range::{Ranges, difference};
use vk_residue::{NoMemory, Residue};
use vk_seq::Seq;

/// One wire isn't below another, or a third isn't below a fourth, for values below 2^width and a
/// width of 1 to 16. A pair of weight 1 says which: it is 1 where the first is shown.
#[derive(Clone, Copy, Debug)]
pub struct EitherAtLeast {
    pub first_left: u32,
    pub first_right: u32,
    pub second_left: u32,
    pub second_right: u32,
    pub width: u32,
}

impl Relation for EitherAtLeast {
    ghost fits = { λ r plan. IsEither r (length plan.kinds) };

    ghost wires = { λ r _. either_wires r.width };

    ghost rows = { λ r start. either_rows r start };

    ghost true_of = { λ r values. IsEitherAtLeast r values };

    ghost filled = { λ r values. either_values r values };

    ghost sound = { either_sound };

    ghost complete = { λ r plan values own fits holds either.
        either_complete r plan values own fits holds either };

    fn add(&self, alloc: Global, plan: &mut Plan) -> Result<(), NoMemory> {
        let wires = plan.wires();
        let rows = plan.rows();
        let ranges = self.paired_ranges(alloc, wires)?;
        plan.append(&[WireKind::Pair(0)], None)?;
        if let Err(refused) = ranges.add(alloc, plan) {
            plan.cut(wires, rows);
            return Err(refused);
        }
        Ok(())
    }

    fn fill(&self, values: &mut Vec<Residue>) -> Result<(), NoMemory> {
        let one = self.is_one(values.as_slice());
        let before = values.len();
        let ranges = self.ranges_at(*values.allocator(), one)?;
        values.push(pair_of(one))?;
        if let Err(refused) = ranges.fill(values) {
            values.truncate(before);
            return Err(refused);
        }
        Ok(())
    }
}

impl EitherAtLeast {
    /// Left less right of both, and what is more of one of them, over the wire of the pair; of one
    /// bit more than the width.
    fn paired_ranges(&self, alloc: Global, pair: u32) -> Result<Ranges, NoMemory>
        requires { self.now.width ≤ 16 }
        ensures { IfOk result (λ ranges. ranges ≡ paired_ranges self.now pair) }
    {
        let more = Residue::pow2(self.width);
        let mut first = shifted_difference(alloc, self.first_left, self.first_right, more)?;
        first.terms.push(Term {
            wire: pair,
            factor: more.neg(),
        })?;
        let mut second = shifted_difference(
            alloc,
            self.second_left,
            self.second_right,
            Residue::ZERO,
        )?;
        second.terms.push(Term {
            wire: pair,
            factor: more,
        })?;
        let ranges = both(alloc, first, second, self.width + 1)?;
        Ok(ranges)
    }

    /// The same where the pair is 1, or 0.
    fn ranges_at(&self, alloc: Global, one: bool) -> Result<Ranges, NoMemory>
        requires { self.now.width ≤ 16 }
        ensures { IfOk result (λ ranges. ranges ≡ ranges_at self.now one) }
    {
        let more = Residue::pow2(self.width);
        let (of_first, of_second) = if one {
            (Residue::ZERO, more)
        } else {
            (more, Residue::ZERO)
        };
        let first = shifted_difference(alloc, self.first_left, self.first_right, of_first)?;
        let second = shifted_difference(alloc, self.second_left, self.second_right, of_second)?;
        let ranges = both(alloc, first, second, self.width + 1)?;
        Ok(ranges)
    }

    /// Both are in their ranges where the pair is 1.
    fn is_one(&self, values: &[Residue]) -> bool
        requires { IsEither self.now (length values.now) }
        ensures { result ≡ is_one self.now values.now }
    {
        let bound = Residue::pow2(self.width + 1).get();
        let first = shifted_value(values, self.first_left, self.first_right, Residue::ZERO);
        let more = Residue::pow2(self.width);
        let second = shifted_value(values, self.second_left, self.second_right, more);
        first.get() < bound && second.get() < bound
    }
}

/// 1, or 0.
fn pair_of(one: bool) -> Residue
    ensures { result ≡ e_value one }
{
    if one { Residue::ONE } else { Residue::ZERO }
}

/// Both forms, of one width.
fn both(alloc: Global, first: Form, second: Form, width: u32) -> Result<Ranges, NoMemory>
    ensures { IfOk result (λ ranges. ranges
        ≡ record { forms = first ∷ second ∷ []; width = width }) }
{
    let mut forms = Vec::new(alloc);
    forms.push(first)?;
    forms.push(second)?;
    Ok(Ranges {
        forms: Seq::from_vec(forms),
        width,
    })
}

/// Left less right, and a constant.
fn shifted_difference(
    alloc: Global,
    left: u32,
    right: u32,
    constant: Residue,
) -> Result<Form, NoMemory>
    ensures { IfOk result (λ form. form ≡ shifted_form left right constant) }
{
    let mut form = difference(alloc, left, right, false)?;
    form.constant = constant;
    Ok(form)
}

/// What that comes to.
#[tactic(auto, unfolding(vk_plan::specs::Forms::form_value))]
fn shifted_value(values: &[Residue], left: u32, right: u32, constant: Residue) -> Residue
    requires left { left < length values.now }
    requires right { right < length values.now }
    ensures { result ≡ form_value (shifted_form left right constant) values.now }
{
    let terms = [
        Term {
            wire: left,
            factor: Residue::ONE,
        },
        Term {
            wire: right,
            factor: Residue::ONE.neg(),
        },
    ];
    sum_of_terms(&terms, values).add(constant)
}

/// For four values below 2^width the relation is true exactly where the first isn't below the
/// second, or the third not below the fourth.
pub fn either_is_at_least()
    ensures { (relation : EitherAtLeast) (values : List ℕ) → relation.width ≤ 16
        → AreSmall relation values
        → IsEitherAtLeast relation values
        ↔ ((slice_index values relation.first_right ≤ slice_index values relation.first_left)
        ⊎ (slice_index values relation.second_right ≤ slice_index values relation.second_left)) }
{}
