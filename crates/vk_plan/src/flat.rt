ghost use Rattle.std.specs.Prelude.{◌≡◌, ◌<◌, ◌++◌, [], ◌∷◌, length, map, slice_index_or, OnOk};
ghost use Rattle.vk_plan.specs.Forms.{linear_part, NamesBelow, no_row};
ghost use Rattle.vk_plan.specs.Tables.{AreFlat, flat_rows, start_from};

use crate::form::{Form, Term};
use std::alloc::Global;
use vk_residue::{Acc, NoMemory, Residue};

/// Rows one after another: the wires and the factors of all of them, where each row ends, and the
/// constants.
#[derive(Debug, Drop)]
pub struct Flat {
    wires: Vec<u32>,
    factors: Vec<Residue>,
    ends: Vec<usize>,
    constants: Vec<Residue>,
}

impl Flat {
    /// No rows.
    pub fn new(alloc: Global) -> Flat
        ensures flat { AreFlat result }
        ensures rows { flat_rows result ≡ [] }
    {
        Flat {
            wires: Vec::new(alloc),
            factors: Vec::new(alloc),
            ends: Vec::new(alloc),
            constants: Vec::new(alloc),
        }
    }

    /// Adds a row behind the others.
    #[tactic(auto, using(crate::proofs::Tables::rows_pushed, crate::proofs::Tables::flat_pushed))]
    pub fn push(&mut self, row: &Form) -> Result<(), NoMemory>
        requires { AreFlat self.old }
        ensures flat { OnOk result (AreFlat self.new) }
        ensures rows { OnOk result (flat_rows self.new ≡ flat_rows self.old ++ row.now ∷ []) }
    {
        self.push_terms(row.terms.as_slice())?;
        self.ends.push(self.wires.len())?;
        self.constants.push(row.constant)?;
        Ok(())
    }

    /// Adds the wires and factors of a row.
    fn push_terms(&mut self, terms: &[Term]) -> Result<(), NoMemory>
        ensures wires { OnOk result
            (self.new.wires.items ≡ self.old.wires.items ++ map (λ term. term.wire) terms.now) }
        ensures factors { OnOk result
            (self.new.factors.items
            ≡ self.old.factors.items ++ map (λ term. term.factor) terms.now) }
        ensures ends { self.new.ends ≡ self.old.ends }
        ensures constants { self.new.constants ≡ self.old.constants }
    {
        for term in terms {
            self.wires.push(term.wire)?;
            self.factors.push(term.factor)?;
        }
        Ok(())
    }

    /// A row without its constant on the values.
    #[tactic(auto, using(crate::proofs::Tables::sum_more, crate::proofs::Tables::sum_whole, crate::proofs::Tables::named_below))]
    pub fn sum(&self, row: usize, values: &[Residue]) -> Residue
        requires flat { AreFlat self.now }
        requires row { row < length self.now.ends.items }
        requires names { NamesBelow (length values.now)
            (slice_index_or (flat_rows self.now) row no_row).terms }
        ensures { result ≡ linear_part (slice_index_or (flat_rows self.now) row no_row).terms
            values.now }
    {
        let mut sum = Acc::new();
        for at in self.start(row)..self.ends[row] {
            sum.take(self.factors[at], values[self.wires[at] as usize]);
        }
        sum.give()
    }

    /// Where a row begins: where the one before ends.
    #[tactic(auto, using(crate::proofs::Tables::start_first, crate::proofs::Tables::start_after))]
    fn start(&self, row: usize) -> usize
        requires { row < length self.now.ends.items }
        ensures { result ≡ start_from 0 self.now.ends.items row }
    {
        if row == 0 { 0 } else { self.ends[row - 1] }
    }

    /// The constant of a row.
    #[tactic(auto, using(crate::proofs::Tables::row_at))]
    pub fn constant(&self, row: usize) -> Residue
        requires flat { AreFlat self.now }
        requires row { row < length self.now.ends.items }
        ensures { result ≡ (slice_index_or (flat_rows self.now) row no_row).constant }
    {
        self.constants[row]
    }
}
