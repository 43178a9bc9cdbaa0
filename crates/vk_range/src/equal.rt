ghost use Rattle.std.specs.Prelude.{◌≡◌, ◌<◌, [], ◌∷◌, false, length, slice_index};
ghost use Rattle.vk_plan.specs.Forms.{form_value, NamesBelow};
ghost use Rattle.vk_range.specs.Forms.{difference_form, one_wire};
ghost use Rattle.vk_range.specs.Laws.{sum_is_sound, sum_is_complete, equal_sound, equal_complete, copied_complete};

use crate::sets::difference;
use std::alloc::Global;
use vk_plan::{Form, Plan, Relation, WireKind};
use vk_residue::{NoMemory, Residue};

/// The values of the two wires are equal.
#[derive(Clone, Copy, Debug)]
pub struct Equal {
    pub left: u32,
    pub right: u32,
}

impl Relation for Equal {
    ghost fits = { λ r plan. (r.left < length plan.kinds) × (r.right < length plan.kinds) };

    ghost wires = { λ _ _. [] };

    ghost rows = { λ r _. difference_form r.left r.right false ∷ [] };

    ghost true_of = { λ r values. slice_index values r.left ≡ slice_index values r.right };

    ghost filled = { λ _ _. [] };

    ghost sound = { λ r plan values _ fits holds. equal_sound plan r.left r.right values fits.0
        fits.1 holds };

    ghost complete = { λ r plan values own fits holds same.
        equal_complete plan r.left r.right values own fits.0 fits.1 holds same };

    fn add(&self, alloc: Global, plan: &mut Plan) -> Result<(), NoMemory> {
        let form = difference(alloc, self.left, self.right, false)?;
        plan.append(&[], Some(form))?;
        Ok(())
    }

    fn fill(&self, _values: &mut Vec<Residue>) -> Result<(), NoMemory> {
        Ok(())
    }
}

/// The form is 0.
#[derive(Debug, Drop)]
pub struct SumIs {
    pub form: Form,
}

impl Relation for SumIs {
    ghost fits = { λ r plan. NamesBelow (length plan.kinds) r.form.terms };

    ghost wires = { λ _ _. [] };

    ghost rows = { λ r _. r.form ∷ [] };

    ghost true_of = { λ r values. form_value r.form values ≡ 0 };

    ghost filled = { λ _ _. [] };

    ghost sound = { λ r plan values _ fits holds. sum_is_sound plan r.form values fits holds };

    ghost complete = { λ r plan values own fits holds nothing.
        sum_is_complete plan r.form values own fits holds nothing };

    fn add(&self, alloc: Global, plan: &mut Plan) -> Result<(), NoMemory> {
        let form = self.form.copy(alloc)?;
        plan.append(&[], Some(form))?;
        Ok(())
    }

    fn fill(&self, _values: &mut Vec<Residue>) -> Result<(), NoMemory> {
        Ok(())
    }
}

/// A new wire of any value, equal to the named one. As a relation it says nothing of the wires
/// before: that the copy has the value of the wire is what its row says, and it is from the row
/// that a proof takes it.
#[derive(Clone, Copy, Debug)]
pub struct Copied {
    pub wire: u32,
}

impl Relation for Copied {
    ghost fits = { λ r plan. r.wire < length plan.kinds };

    ghost wires = { λ _ _. one_wire };

    ghost rows = { λ r start. difference_form r.wire start false ∷ [] };

    ghost true_of = { λ _ _. Unit {0} };

    ghost filled = { λ r values. slice_index values r.wire ∷ [] };

    ghost sound = { λ _ _ _ _ _ _. tt };

    ghost complete = { λ r plan values own fits holds _.
        copied_complete plan r.wire values own fits holds };

    fn add(&self, alloc: Global, plan: &mut Plan) -> Result<(), NoMemory> {
        let form = difference(alloc, self.wire, plan.wires(), false)?;
        plan.append(&[WireKind::Split], Some(form))?;
        Ok(())
    }

    fn fill(&self, values: &mut Vec<Residue>) -> Result<(), NoMemory> {
        let value = values[self.wire as usize];
        values.push(value)?;
        Ok(())
    }
}
