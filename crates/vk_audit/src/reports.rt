//! What is said of a board that is reported on.

ghost use Rattle.std.specs.Prelude.{◌≡◌, ℕ, IfOk, OnOk, Err, Some};
ghost use Rattle.vk_io.specs.Faults.{Causes};
ghost use Rattle.vk_report.specs.Reports.{IsReport, fault_of};
ghost use Rattle.vk_audit.specs.Reports.{reported_said, unreported_said};

use std::alloc::Global;
use vk_effect::{Said, missing, say_malformed, say_refused, too_long};
use vk_io::OutsideErr;
use vk_report::{Report, ReportErr, report_lines};
use vk_residue::NoMemory;

/// What is said of a board: its report.
pub fn say_report(alloc: Global, report: &Report) -> Result<Said, NoMemory>
    requires { IsReport report.now }
    ensures { IfOk result (λ said. said ≡ reported_said report.now) }
{
    let lines = report_lines(alloc, report)?;
    Ok(Said::of_lines(0, lines))
}

/// What is said of the first fault of the board's file. A failure is handed on.
pub fn say_report_fault(alloc: Global, board: &str, fault: ReportErr) -> Result<Said, OutsideErr>
    ensures said { IfOk result (λ said. said ≡ unreported_said board.now fault) }
    ensures file { OnOk result (fault_of fault ≡ Some fault) }
    ensures causes { (before after : ℕ)
        → Causes {T = Unit {0}} ReportErr.Failed (Err fault) before after
        → Causes OutsideErr.Failed result before after }
{
    let said = match fault {
        ReportErr::Missing => missing(alloc, board)?,
        ReportErr::TooLong => too_long(alloc, board)?,
        ReportErr::Malformed { line } => say_malformed(alloc, board, line)?,
        ReportErr::Price => say_refused(alloc, board, "price")?,
        ReportErr::Winner => say_refused(alloc, board, "winner")?,
        ReportErr::Failed => return Err(OutsideErr::Failed),
        ReportErr::NoMemory => return Err(OutsideErr::NoMemory),
    };
    Ok(said)
}
