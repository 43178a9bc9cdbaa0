ghost use Rattle.std.specs.Prelude.{◌≡◌, ◌<◌, length, slice_index_or, IfOk};
ghost use Rattle.vk_plan.specs.Forms.{linear_part, NamesBelow, no_row};

use crate::flat::Flat;
use crate::plan::Plan;
use std::alloc::Global;
use std::marker::Model;
use vk_residue::{NoMemory, Residue};

/// The rows of a plan laid out flat, so that a lane is checked in one pass over its arrays.
#[derive(Debug, Drop)]
pub struct RowTable {
    flat: Flat,
}

impl Model for RowTable {
    ghost use Rattle.std.specs.Prelude.{List};
    ghost use Rattle.vk_plan.specs.Tables.{AreFlat, flat_rows};
    ghost use Rattle.vk_plan.specs.declared.form.Form.{Form};

    ghost Value = { List Form };

    ghost view = { λ t. flat_rows t.flat };

    ghost invariant = { λ t. AreFlat t.flat };
}

impl RowTable {
    /// The rows of the plan.
    pub fn of(alloc: Global, plan: &Plan) -> Result<RowTable, NoMemory>
        ensures { IfOk result (λ table. table ≡ plan.now.rows) }
    {
        let mut flat = Flat::new(alloc);
        for row in 0..plan.rows() {
            flat.push(plan.row(row))?;
        }
        Ok(RowTable { flat })
    }

    /// A row, counted from 0, without its constant on the values. Takes no memory.
    #[tactic(auto, using(crate::proofs::Tables::rows_length))]
    pub fn sum(&self, row: u32, halves: &[Residue]) -> Residue
        requires row { row < length self.now }
        requires names { NamesBelow (length halves.now) (slice_index_or self.now row no_row).terms }
        ensures { result ≡ linear_part (slice_index_or self.now row no_row).terms halves.now }
    {
        self.flat.sum(row as usize, halves)
    }

    /// The constant of a row, counted from 0. Takes no memory.
    #[tactic(auto, using(crate::proofs::Tables::rows_length))]
    pub fn constant(&self, row: u32) -> Residue
        requires { row < length self.now }
        ensures { result ≡ (slice_index_or self.now row no_row).constant }
    {
        self.flat.constant(row as usize)
    }
}
