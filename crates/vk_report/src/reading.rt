ghost use Rattle.std.specs.Prelude.{◌≡◌, IfSome, IfOk, Ok};
ghost use Rattle.vk_lines.specs.Common.{Gives, OnlyReads, Reads};
ghost use Rattle.vk_board.specs.Fronts.{IsFront};
ghost use Rattle.vk_report.specs.Reports.{IsReport, fault_of, report_with, lanes_passed, report_at, report_on};

use crate::report::{Report, ReportErr};
use crate::shape::{row_count_of, wire_count_of};
use std::alloc::Global;
use vk_board::{Front, FrontErr, read_front, read_lane, seats_of};
use vk_io::Shelf;
use vk_lines::{Lines, ReadErr};
use vk_residue::NoMemory;

/// The report of a board with this front.
fn report_from(alloc: Global, front: &Front) -> Result<Report, NoMemory>
    requires { IsFront front.now }
    ensures report { IfOk result (λ report. report ≡ report_with front.now) }
    ensures right { IfOk result IsReport }
{
    let seats = seats_of(alloc, front.seals.as_slice())?;
    Ok(Report {
        head: front.head,
        seats,
        wires: wire_count_of(&front.head),
        rows: row_count_of(&front.head),
    })
}

/// Reads the lanes of the board, and keeps nothing of them.
fn read_lanes<S: Shelf>(
    alloc: Global,
    shelf: &mut S,
    lines: &mut Lines,
    report: &Report,
) -> Result<(), ReadErr>
    requires { IsReport report.now }
    ensures reads { Reads (lanes_passed report.now) S.held S.Shelf.faults
        lines.old lines.new shelf.old shelf.new result }
{
    let wires = report.wires - report.head.seals;
    for index in 0..report.head.lanes {
        read_lane(alloc, shelf, lines, index + 1, wires, report.rows)?;
    }
    Ok(())
}

/// Reports what the named board publishes, with the whole file read.
///
/// Errs where the file is missing or longer than 2^30 bytes; with the first of its faults, in the
/// order of the lines of its head and its seals, the price, the winner, and the lines of its lanes
/// and its end; where the shelf fails; and for want of memory.
#[tactic(auto, unfolding(crate::specs::Reports::report_on, crate::specs::Reports::report_at))]
pub fn read_report<S: Shelf>(alloc: Global, shelf: &mut S, board: &str) -> Result<Report, ReportErr>
    ensures modelled { IfSome (S.held shelf.old) (λ files.
        Gives fault_of (λ report. report) result (report_on files board.now)) }
    ensures right { IfOk result IsReport }
    ensures shelf { OnlyReads S.held S.Shelf.faults ReportErr.Failed result shelf.old shelf.new }
{
    let mut lines = Lines::start(alloc, shelf, board)?;
    let front = read_front(alloc, shelf, &mut lines)?;
    let Ok(report) = report_from(alloc, &front) else {
        return Err(ReportErr::NoMemory);
    };
    read_lanes(alloc, shelf, &mut lines, &report).map_err(FrontErr::from)?;
    lines.read_end(shelf).map_err(FrontErr::from)?;
    Ok(report)
}
