//! Printing, line by line.

ghost use Rattle.std.specs.Prelude.{string_bytes};
ghost use Rattle.std.specs.List.{flat_map};
ghost use Rattle.vk_lines.specs.Common.{Causes, Modelled, Takes};

use vk_io::{OutsideErr, Sink};

/// Prints the lines, each by itself.
pub fn print<W: Sink>(lines: &[String], out: &mut W) -> Result<(), OutsideErr>
    ensures printed { Modelled (Takes (flat_map string_bytes lines.now) result) (W.taken out.old)
        (W.taken out.new) }
    ensures causes { Causes OutsideErr.Failed result (W.Sink.faults out.old)
        (W.Sink.faults out.new) }
{
    for line in lines {
        out.put(line.as_bytes())?;
    }
    Ok(())
}
