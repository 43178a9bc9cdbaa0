//! What is said for the ceremony itself.

ghost use Rattle.std.specs.Prelude.{◌≡◌, ℕ, IfOk};
ghost use Rattle.vk_io.specs.Faults.{Causes};
ghost use Rattle.vk_effect.specs.Counts.{CausesThree};
ghost use Rattle.vk_effect.specs.Effects.{IsCommandEnd};
ghost use Rattle.vk_ceremony.specs.Ceremonies.{EndsSaying, closing_said, end_said};
ghost use Rattle.vk_ceremony.specs.Turns.{ClosesSaying, EndsWell, IsNextTurn};

use crate::holding::Turn;
use std::alloc::Global;
use vk_effect::{Said, say_malformed};
use vk_io::{OutsideErr, Sink};
use vk_residue::NoMemory;

/// Says that the script has that fault line, or that it was read to its end, and whether a command
/// of it was refused. Answers that the ceremony is at its end, with its status.
pub fn close<W: Sink>(
    alloc: Global,
    out: &mut W,
    script: &str,
    fault: Option<u64>,
    refused: bool,
) -> Result<Turn, OutsideErr>
    ensures ends { ClosesSaying (closing_said script.now fault refused) result (W.taken out.old)
        (W.taken out.new) }
    ensures end { IfOk result EndsWell }
    ensures last { IfOk result (λ turn. IsNextTurn turn → ⊥) }
    ensures causes { (before files kept : ℕ) → files ≡ before
        → CausesThree OutsideErr.Failed result before files kept kept (W.Sink.faults out.old)
        (W.Sink.faults out.new) }
{
    let said = closing(alloc, script, fault, refused)?;
    let status = say(out, &said)?;
    Ok(Turn::Ended(status))
}

/// What is said of a script.
fn closing(alloc: Global, script: &str, fault: Option<u64>, refused: bool) -> Result<Said, NoMemory>
    ensures { IfOk result (λ said. said ≡ closing_said script.now fault refused) }
{
    match fault {
        Some(number) => {
            let said = say_malformed(alloc, script, number)?;
            Ok(said)
        }
        None => {
            let said = end(alloc, refused)?;
            Ok(said)
        }
    }
}

/// What is said of one that was read to its end.
fn end(alloc: Global, refused: bool) -> Result<Said, NoMemory>
    ensures { IfOk result (λ said. said ≡ end_said refused) }
{
    let said = Said::of_line(alloc, if refused { 8 } else { 0 }, "end\n")?;
    Ok(said)
}

/// Prints what is said, and answers its status.
pub fn say<W: Sink>(out: &mut W, said: &Said) -> Result<u8, OutsideErr>
    ensures ends { EndsSaying said.now result (W.taken out.old) (W.taken out.new) }
    ensures end { IfOk result IsCommandEnd }
    ensures causes { Causes OutsideErr.Failed result (W.Sink.faults out.old)
        (W.Sink.faults out.new) }
{
    said.print(out)?;
    Ok(said.status())
}
