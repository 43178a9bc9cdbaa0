ghost use Rattle.std.specs.Prelude.{◌≡◌, ◌+◌, ◌<◌, ◌≤◌, ◌++◌, [], ◌∷◌, length, IfOk, OnOk, OnErr};
ghost use Rattle.vk_plan.specs.declared.wire.WireKind.TheVariants.{Pair as PairOf};
ghost use Rattle.vk_plan.specs.Plans.{IsPlan, extended};
ghost use Rattle.vk_range.specs.Sets.{listed, test_set, set_row, plus};
ghost use Rattle.vk_range.specs.Selected.{IsSelection, IsSelected, place_form, place_number, may_stand as MayStand, serves as Serves, first_place as FirstPlace, selector, selectors, selector_row, selected_wires, selected_rows, selected_values};
ghost use Rattle.vk_range.specs.SelectedLaws.{selecting, selected_sound, selected_complete};

use crate::sets::{add_set, all_ones, plus_wire, push_or_cut, push_parts};
use std::alloc::Global;
use vk_plan::{Form, Plan, Relation, Term, WireKind};
use vk_residue::{NoMemory, Residue};
use vk_seq::Seq;

/// For some listed place, its wire less the value is below 2^width, and for every other listed
/// place 2^width - 1 less the value plus its wire is. With 1 to 63 wires, and a width of 1 to 40.
#[derive(Debug, Drop)]
pub struct SelectedIs {
    pub wires: Seq<u32>,
    pub value: Residue,
    pub width: u32,
}

impl Relation for SelectedIs {
    ghost fits = { λ r plan. IsSelection r (length plan.kinds) };

    ghost wires = { λ r _. selected_wires r };

    ghost rows = { λ r start. selected_rows r start };

    ghost true_of = { λ r values. (place : _) × IsSelected r values place };

    ghost filled = { λ r values. selected_values r values };

    ghost sound = { λ r plan values own fits holds. selected_sound r plan values own fits holds };

    ghost complete = { λ r plan values own fits holds selected.
        selected_complete r plan values selected.0 own fits holds selected.1 };

    fn add(&self, alloc: Global, plan: &mut Plan) -> Result<(), NoMemory> {
        let wires = plan.wires();
        let rows = plan.rows();
        self.add_selectors(alloc, plan)?;
        for place in 0..self.places() {
            if let Err(refused) = self.add_place(alloc, plan, wires, place) {
                plan.cut(wires, rows);
                return Err(refused);
            }
        }
        Ok(())
    }

    fn fill(&self, values: &mut Vec<Residue>) -> Result<(), NoMemory> {
        let before = values.len();
        let selected = self.first_place(values.as_slice());
        push_selectors(values, self.places(), selected)?;
        for place in 0..self.places() {
            let number = self.number(values.as_slice(), place, place == selected);
            if let Err(refused) = push_parts(values, number, self.width) {
                values.truncate(before);
                return Err(refused);
            }
        }
        Ok(())
    }
}

impl SelectedIs {
    /// How many wires are listed.
    fn places(&self) -> u32
        requires { length self.now.wires ≤ 63 }
        ensures { result ≡ length self.now.wires }
    {
        self.wires.len() as u32
    }

    /// What the form of a place comes to where it is selected, or not.
    fn number(&self, values: &[Residue], place: u32, selected: bool) -> Residue
        requires fits { IsSelection self.now (length values.now) }
        requires place { place < length self.now.wires }
        ensures { result ≡ place_number self.now values.now place selected }
    {
        let wire = values[self.wires.as_slice()[place as usize] as usize];
        if selected {
            wire.sub(self.value)
        } else {
            wire.add(all_ones(self.width).sub(self.value))
        }
    }

    /// The other place is within its range where that place is selected.
    fn may_stand(&self, values: &[Residue], place: u32, other: u32) -> bool
        requires fits { IsSelection self.now (length values.now) }
        requires other { other < length self.now.wires }
        ensures { result ≡ MayStand self.now values.now place other }
    {
        let number = self.number(values, other, other == place);
        number.get() < Residue::pow2(self.width).get()
    }

    /// That place may be the selected one.
    fn serves(&self, values: &[Residue], place: u32) -> bool
        requires fits { IsSelection self.now (length values.now) }
        ensures { result ≡ Serves self.now values.now place }
    {
        for other in 0..self.places() {
            if !self.may_stand(values, place, other) {
                return false;
            }
        }
        true
    }

    /// The first place that may be the selected one, the number of places where none may.
    pub fn first_place(&self, values: &[Residue]) -> u32
        requires fits { IsSelection self.now (length values.now) }
        ensures { result ≡ FirstPlace self.now values.now }
    {
        for place in 0..self.places() {
            if self.serves(values, place) {
                return place;
            }
        }
        self.places()
    }

    /// Appends a selector for each place, and the row that they sum to 1.
    fn add_selectors(&self, alloc: Global, plan: &mut Plan) -> Result<(), NoMemory>
        requires most { length self.now.wires ≤ 63 }
        requires room { IsPlan (selecting self.now plan.old) }
        ensures added { OnOk result (plan.new ≡ selecting self.now plan.old) }
        ensures as_before { OnErr result (plan.new ≡ plan.old) }
    {
        let kinds = selector_wires(alloc, self.places())?;
        let row = selector_form(alloc, plan.wires(), self.places())?;
        plan.append(kinds.as_slice(), Some(row))?;
        Ok(())
    }

    /// (2^width - 1) * (1 - selector) - value + wire, where the selectors begin at a wire.
    fn form(&self, alloc: Global, start: u32, place: u32) -> Result<Form, NoMemory>
        requires start { start + place < 4294967296 }
        requires place { place < length self.now.wires }
        requires some_width { 1 ≤ self.now.width }
        requires most_width { self.now.width ≤ 40 }
        ensures { IfOk result (λ form. form ≡ place_form self.now start place) }
    {
        let all = all_ones(self.width);
        let mut terms = Vec::new(alloc);
        terms.push(Term {
            wire: start + place,
            factor: all.neg(),
        })?;
        terms.push(plus_wire(self.wires.as_slice()[place as usize]))?;
        Ok(Form {
            terms: Seq::from_vec(terms),
            constant: all.sub(self.value),
        })
    }

    /// Appends the set of a place and its row.
    fn add_place(
        &self,
        alloc: Global,
        plan: &mut Plan,
        start: u32,
        place: u32,
    ) -> Result<(), NoMemory>
        requires start { start + place < 4294967296 }
        requires place { place < length self.now.wires }
        requires some_width { 1 ≤ self.now.width }
        requires most_width { self.now.width ≤ 40 }
        requires room { IsPlan (extended plan.old (test_set self.now.width)
            (set_row (place_form self.now start place) (length plan.old.kinds) self.now.width
            ∷ [])) }
        ensures added { OnOk result (plan.new ≡ extended plan.old (test_set self.now.width)
            (set_row (place_form self.now start place) (length plan.old.kinds) self.now.width
            ∷ [])) }
        ensures as_before { OnErr result (plan.new ≡ plan.old) }
    {
        let form = self.form(alloc, start, place)?;
        add_set(alloc, plan, &form, self.width)?;
        Ok(())
    }
}

/// That many pairs of weight 1.
fn selector_wires(alloc: Global, count: u32) -> Result<Vec<WireKind>, NoMemory>
    ensures { IfOk result (λ kinds. kinds.items ≡ listed (λ _. PairOf 0) count) }
{
    let mut kinds = Vec::new(alloc);
    for _place in 0..count {
        kinds.push(WireKind::Pair(0))?;
    }
    Ok(kinds)
}

/// The sum of that many wires from one on, less 1.
fn selector_form(alloc: Global, start: u32, count: u32) -> Result<Form, NoMemory>
    requires { start + count < 4294967296 }
    ensures { IfOk result (λ form. form
        ≡ record {
          terms = listed (λ place. plus (start + place)) count;
          constant = 2305843009213693950;
        }) }
{
    let mut terms = Vec::new(alloc);
    for place in 0..count {
        terms.push(plus_wire(start + place))?;
    }
    Ok(Form {
        terms: Seq::from_vec(terms),
        constant: Residue::ONE.neg(),
    })
}

/// Appends 1 at the selected place and 0 at the others. After a refusal the values are as before.
fn push_selectors(values: &mut Vec<Residue>, count: u32, selected: u32) -> Result<(), NoMemory>
    ensures pushed { OnOk result (values.new.items ≡ values.old.items ++ selectors count selected) }
    ensures as_before { OnErr result (values.new.items ≡ values.old.items) }
{
    let before = values.len();
    for place in 0..count {
        push_or_cut(values, before, selector_of(selected, place))?;
    }
    Ok(())
}

/// 1 at the selected place, else 0.
fn selector_of(selected: u32, place: u32) -> Residue
    ensures { result ≡ selector selected place }
{
    if place == selected {
        Residue::ONE
    } else {
        Residue::ZERO
    }
}
