ghost use Rattle.std.specs.Prelude.{◌≡◌, length};
ghost use Rattle.vk_range.specs.Ranges.{AreRanges, AreOfWidth, ranges_wires, ranges_rows, ranges_values};
ghost use Rattle.vk_range.specs.RangesLaws.{ranges_sound, ranges_complete};

use crate::sets::{add_set, push_parts};
use std::alloc::Global;
use vk_plan::{Form, Plan, Relation};
use vk_residue::{NoMemory, Residue};
use vk_seq::Seq;

/// Each form is below 2^width, for one width of 1 to 40.
#[derive(Debug, Drop)]
pub struct Ranges {
    pub forms: Seq<Form>,
    pub width: u32,
}

impl Relation for Ranges {
    ghost fits = { λ r plan. AreRanges r (length plan.kinds) };

    ghost wires = { λ r _. ranges_wires r };

    ghost rows = { λ r start. ranges_rows r start };

    ghost true_of = { λ r values. AreOfWidth r values };

    ghost filled = { λ r values. ranges_values r values };

    ghost sound = { λ r plan values own fits holds. ranges_sound r plan values own fits holds };

    ghost complete = { λ r plan values own fits holds each.
        ranges_complete r plan values own fits holds each };

    fn add(&self, alloc: Global, plan: &mut Plan) -> Result<(), NoMemory> {
        let wires = plan.wires();
        let rows = plan.rows();
        for form in self.forms.as_slice() {
            if let Err(refused) = add_set(alloc, plan, form, self.width) {
                plan.cut(wires, rows);
                return Err(refused);
            }
        }
        Ok(())
    }

    fn fill(&self, values: &mut Vec<Residue>) -> Result<(), NoMemory> {
        let before = values.len();
        for form in self.forms.as_slice() {
            let number = form.value(values.as_slice());
            if let Err(refused) = push_parts(values, number, self.width) {
                values.truncate(before);
                return Err(refused);
            }
        }
        Ok(())
    }
}
