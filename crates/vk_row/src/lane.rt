// The check of what is shown of a lane.
ghost use Rattle.std.specs.Prelude.{◌≡◌, ◌<◌, length, slice_index_or};
ghost use Rattle.vk_row.specs.Lanes.{HasCounts};
ghost use Rattle.vk_plan.specs.Forms.{NamesBelow, no_row};
ghost use Rattle.vk_row.specs.Rows.{has_side};
ghost use Rattle.vk_row.specs.LaneTests.{JudgesLane, first_false_row};

use crate::case::{LaneCase, LaneFault};
use crate::wires::{ShownLane, read_wires};
use std::alloc::Global;
use vk_plan::{Plan, RowTable};
use vk_residue::Residue;
use vk_wire::Shown;

/// The halves of the wires of the lane, if each wire reads one and each row is met.
///
/// Each wire is to read its half for the bit, and the halves are to meet each row with its posted
/// number. The first wire in order that reads nothing is named, else the first row that isn't met.
pub fn check_lane(
    alloc: Global,
    plan: &Plan,
    case: &LaneCase,
    bit: bool,
    shown: &[Shown],
) -> Result<Vec<Residue>, LaneFault>
    requires { HasCounts plan.now case.now shown.now }
    ensures judged { JudgesLane plan.now case.now bit shown.now (λ halves. halves.items) result }
{
    let table = RowTable::of(alloc, plan)?;
    check_lane_with(alloc, plan, &table, case, bit, shown)
}

/// The same with a table of the plan's rows, which serves for every lane of the plan.
#[tactic(auto, using(crate::proofs::Whole::ok_accepted, crate::proofs::Whole::err_faulty), unfolding(crate::specs::LaneTests::checked_lane))]
pub fn check_lane_with(
    alloc: Global,
    plan: &Plan,
    table: &RowTable,
    case: &LaneCase,
    bit: bool,
    shown: &[Shown],
) -> Result<Vec<Residue>, LaneFault>
    requires counts { HasCounts plan.now case.now shown.now }
    requires table { table.now ≡ plan.now.rows }
    ensures judged { JudgesLane plan.now case.now bit shown.now (λ halves. halves.items) result }
{
    let halves = read_wires(alloc, plan, &ShownLane { case, bit, shown })?;
    match first_unmet_row(plan, table, case, bit, halves.as_slice()) {
        Some(row) => Err(LaneFault::Row { row }),
        None => Ok(halves),
    }
}

/// The first row that the halves don't meet.
#[tactic(auto, using(crate::proofs::Steps::first_false_row_step), unfolding(crate::specs::LaneTests::first_false_row))]
fn first_unmet_row(
    plan: &Plan,
    table: &RowTable,
    case: &LaneCase,
    bit: bool,
    halves: &[Residue],
) -> Option<u32>
    requires table { table.now ≡ plan.now.rows }
    requires halves { length halves.now ≡ length plan.now.kinds }
    requires posted { length case.now.posted ≡ length plan.now.rows }
    ensures { result ≡ first_false_row bit halves.now 0 plan.now.rows case.now.posted }
{
    let posted = case.posted.as_slice();
    for row in 0..plan.rows() {
        if !is_row_met(table, bit, halves, posted[row as usize], row) {
            return Some(row);
        }
    }
    None
}

/// Whether the halves meet the posted number of one row, as `check` says it of a form.
#[tactic(auto, unfolding(vk_plan::specs::Forms::form_value))]
fn is_row_met(table: &RowTable, bit: bool, halves: &[Residue], posted: Residue, row: u32) -> bool
    requires row { row < length table.now }
    requires names { NamesBelow (length halves.now) (slice_index_or table.now row no_row).terms }
    ensures { result ≡ has_side (slice_index_or table.now row no_row) bit halves.now posted }
{
    let sum = table.sum(row, halves);
    if bit {
        sum.add(table.constant(row)) == posted.neg()
    } else {
        sum == posted
    }
}
