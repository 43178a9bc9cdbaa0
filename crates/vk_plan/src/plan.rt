ghost use Rattle.std.specs.Prelude.{◌≡◌, ◌<◌, ◌≤◌, length, slice_get, slice_index_or, Some, OnOk, OnErr, IfOk};
ghost use Rattle.std.specs.Option.{option_to_list};
ghost use Rattle.vk_plan.specs.Forms.{NamesBelow};
ghost use Rattle.vk_plan.specs.Plans.{IsPlan, HasWeight, plan_of_inputs, extended, shortened};

use crate::form::Form;
use crate::wire::WireKind;
use std::alloc::Global;
use std::marker::Model;
use vk_residue::NoMemory;

/// Wires, rows over them, and how many of the first wires are inputs. A row is a form that is to be
/// 0.
#[derive(Debug, Drop)]
pub struct Plan {
    inputs: u32,
    kinds: Vec<WireKind>,
    rows: Vec<Form>,
}

impl Model for Plan {
    ghost use Rattle.vk_plan.specs.Plans.{PlanValue, IsPlan};

    ghost Value = { PlanValue };

    ghost view = { λ p. record { inputs = p.inputs; kinds = p.kinds.items; rows = p.rows.items } };

    ghost invariant = { λ p. IsPlan
        (record { inputs = p.inputs; kinds = p.kinds.items; rows = p.rows.items }) };
}

impl Plan {
    /// That many inputs, 1 to 65536, and no rows.
    pub fn new(alloc: Global, inputs: u32) -> Result<Plan, NoMemory>
        requires some { 1 ≤ inputs }
        requires most { inputs ≤ 65536 }
        ensures { IfOk result (λ plan. plan ≡ plan_of_inputs inputs) }
    {
        let mut kinds = Vec::new(alloc);
        for _input in 0..inputs {
            kinds.push(WireKind::Split)?;
        }
        Ok(Plan {
            inputs,
            kinds,
            rows: Vec::new(alloc),
        })
    }

    /// How many of the wires are inputs: those of the seals, which stand first.
    pub fn inputs(&self) -> u32
        ensures value { result ≡ self.now.inputs }
        ensures plan { IsPlan self.now }
    {
        self.inputs
    }

    /// How many wires a lane has, the inputs among them.
    pub fn wires(&self) -> u32
        ensures value { result ≡ length self.now.kinds }
        ensures plan { IsPlan self.now }
    {
        self.kinds.len() as u32
    }

    /// How many rows a lane has.
    pub fn rows(&self) -> u32
        ensures value { result ≡ length self.now.rows }
        ensures plan { IsPlan self.now }
    {
        self.rows.len() as u32
    }

    /// The kind of a wire, counted from 0.
    pub fn kind(&self, wire: u32) -> WireKind
        requires { wire < length self.now.kinds }
        ensures value { slice_get self.now.kinds wire ≡ Some result }
        ensures read { result ≡ slice_index_or self.now.kinds wire result }
        ensures weight { HasWeight result }
    {
        self.kinds[wire as usize]
    }

    /// A row, counted from 0.
    pub fn row(&self, row: u32) -> &Form
        requires { row < length self.now.rows }
        ensures value { slice_get self.now.rows row ≡ Some result.now }
        ensures names { NamesBelow (length self.now.kinds) result.now.terms }
    {
        &self.rows[row as usize]
    }

    /// Appends the wires, and the row if there is one. After a refusal the plan is as before.
    pub fn append(&mut self, kinds: &[WireKind], row: Option<Form>) -> Result<(), NoMemory>
        requires { IsPlan (extended self.old kinds.now (option_to_list row)) }
        ensures appended { OnOk result
            (self.new ≡ extended self.old kinds.now (option_to_list row)) }
        ensures as_before { OnErr result (self.new ≡ self.old) }
    {
        let before = self.kinds.len();
        self.kinds.extend_from_slice(kinds)?;
        if let Some(form) = row {
            if let Err(_refused) = self.rows.push(form) {
                self.kinds.truncate(before);
                return Err(NoMemory);
            }
        }
        Ok(())
    }

    /// Keeps the first wires and rows. Takes no memory.
    pub fn cut(&mut self, wires: u32, rows: u32)
        requires wires { wires ≤ length self.old.kinds }
        requires rows { rows ≤ length self.old.rows }
        requires plan { IsPlan (shortened self.old wires rows) }
        ensures { self.new ≡ shortened self.old wires rows }
    {
        self.kinds.truncate(wires as usize);
        self.rows.truncate(rows as usize);
    }
}
