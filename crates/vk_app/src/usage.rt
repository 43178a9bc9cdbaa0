//! What is answered to words that are no command.

ghost use Rattle.vk_judge.specs.Common.{Causes, Modelled, Takes};
ghost use Rattle.vk_words.specs.Usage.{usage_text};

use vk_io::{OutsideErr, Sink};
use vk_words::usage_line;

/// Prints the line that says which commands there are. Takes no memory.
pub fn usage<W: Sink>(out: &mut W) -> Result<(), OutsideErr>
    ensures printed { Modelled (Takes usage_text result) (W.taken out.old) (W.taken out.new) }
    ensures causes { Causes OutsideErr.Failed result (W.Sink.faults out.old)
        (W.Sink.faults out.new) }
{
    let line = usage_line();
    out.put(line.as_bytes())
}
