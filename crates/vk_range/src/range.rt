ghost use Rattle.std.specs.Prelude.{◌≡◌, ◌<◌, ◌≤◌, [], ◌∷◌, length};
ghost use Rattle.vk_plan.specs.Forms.{form_value};
ghost use Rattle.vk_range.specs.Sets.{IsOfWidth, test_set, set_row, bit_parts};
ghost use Rattle.vk_range.specs.Forms.{difference_form, IsRange};
ghost use Rattle.vk_range.specs.Laws.{in_range_sound, in_range_complete, at_least_sound, at_least_complete};

use crate::sets::{add_set, constant_of, difference, minus_wire, plus_wire, push_parts};
use std::alloc::Global;
use vk_plan::{Form, Plan, Relation, sum_of_terms};
use vk_residue::{NoMemory, Residue};

/// The form is below 2^width, for a width of 1 to 40.
#[derive(Debug, Drop)]
pub struct InRange {
    pub form: Form,
    pub width: u32,
}

impl Relation for InRange {
    ghost fits = { λ r plan. IsRange r.form r.width plan };

    ghost wires = { λ r _. test_set r.width };

    ghost rows = { λ r start. set_row r.form start r.width ∷ [] };

    ghost true_of = { λ r values. IsOfWidth r.width (form_value r.form values) };

    ghost filled = { λ r values. bit_parts (form_value r.form values) r.width };

    ghost sound = { λ r plan values _ fits holds. in_range_sound plan r.form r.width values fits
        holds };

    ghost complete = { λ r plan values own fits holds below.
        in_range_complete plan r.form r.width values own fits holds below };

    fn add(&self, alloc: Global, plan: &mut Plan) -> Result<(), NoMemory> {
        add_set(alloc, plan, &self.form, self.width)?;
        Ok(())
    }

    fn fill(&self, values: &mut Vec<Residue>) -> Result<(), NoMemory> {
        let number = self.form.value(values.as_slice());
        push_parts(values, number, self.width)?;
        Ok(())
    }
}

/// Left less right, less 1 where strict, is below 2^width, for a width of 1 to 40.
#[derive(Clone, Copy, Debug)]
pub struct AtLeast {
    pub left: u32,
    pub right: u32,
    pub strict: bool,
    pub width: u32,
}

impl Relation for AtLeast {
    ghost fits = { λ r plan. (r.left < length plan.kinds) × (r.right < length plan.kinds)
        × (1 ≤ r.width) × (r.width ≤ 40) };

    ghost wires = { λ r _. test_set r.width };

    ghost rows = { λ r start. set_row (difference_form r.left r.right r.strict) start r.width
        ∷ [] };

    ghost true_of = { λ r values.
        IsOfWidth r.width (form_value (difference_form r.left r.right r.strict) values) };

    ghost filled = { λ r values.
        bit_parts (form_value (difference_form r.left r.right r.strict) values) r.width };

    ghost sound = { λ r plan values _ fits holds.
        at_least_sound plan r.left r.right r.strict r.width values fits.0 fits.1 fits.2 fits.3 holds };

    ghost complete = { λ r plan values own fits holds below.
        at_least_complete plan r.left r.right r.strict r.width values own fits.0 fits.1 fits.2 fits.3 holds below };

    fn add(&self, alloc: Global, plan: &mut Plan) -> Result<(), NoMemory> {
        let form = difference(alloc, self.left, self.right, self.strict)?;
        add_set(alloc, plan, &form, self.width)?;
        Ok(())
    }

    fn fill(&self, values: &mut Vec<Residue>) -> Result<(), NoMemory> {
        let number = self.number(values.as_slice());
        push_parts(values, number, self.width)?;
        Ok(())
    }
}

impl AtLeast {
    /// What the form comes to.
    #[tactic(auto, using(crate::specs::Laws::difference_names), unfolding(vk_plan::specs::Forms::form_value))]
    fn number(&self, values: &[Residue]) -> Residue
        requires left { self.now.left < length values.now }
        requires right { self.now.right < length values.now }
        ensures { result ≡ form_value (difference_form self.now.left self.now.right self.now.strict)
            values.now }
    {
        let terms = [plus_wire(self.left), minus_wire(self.right)];
        sum_of_terms(&terms, values).add(constant_of(self.strict))
    }
}
