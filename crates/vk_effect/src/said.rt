//! What a command that came to its end says: its status and the lines that it prints.

ghost use Rattle.std.specs.Prelude.{◌≡◌, IfOk, string_bytes};
ghost use Rattle.std.specs.List.{flat_map};
ghost use Rattle.vk_lines.specs.Common.{Causes, Modelled, Takes};
ghost use Rattle.vk_effect.specs.Effects.{IsCommandEnd};

use crate::printing::print;
use std::alloc::Global;
use std::marker::Model;
use vk_io::{OutsideErr, Sink};
use vk_residue::NoMemory;
use vk_text::ShortText;

/// What is to be printed.
#[derive(Drop)]
enum SaidText {
    /// Lines, each with its line feed.
    Lines(Vec<String>),
    /// A line for which no memory is taken.
    Short(ShortText),
}

/// The status of a command, none of 2, 6 and 9, and the lines that it prints, each with its line
/// feed.
#[derive(Drop)]
pub struct Said {
    status: u8,
    text: SaidText,
}

impl Model for Said {
    ghost use Rattle.vk_effect.specs.Effects.{SaidValue, IsCommandEnd};
    ghost use Rattle.vk_effect.specs.SaidTexts.{said_text};

    ghost Value = { SaidValue };

    ghost view = { λ s. record { status = s.status; text = said_text s.text } };

    ghost invariant = { λ s. IsCommandEnd s.status };
}

impl Said {
    /// The status, which is none of 2, 6 and 9, and the lines one after another.
    pub fn of_lines(status: u8, lines: Vec<String>) -> Said
        requires { IsCommandEnd status }
        ensures { result ≡ record { status = status; text = flat_map string_bytes lines.items } }
    {
        Said {
            status,
            text: SaidText::Lines(lines),
        }
    }

    /// Takes no memory.
    pub fn of_short(status: u8, line: ShortText) -> Said
        requires { IsCommandEnd status }
        ensures { result ≡ record { status = status; text = line } }
    {
        Said {
            status,
            text: SaidText::Short(line),
        }
    }

    /// The status, which is none of 2, 6 and 9, and one line. Errs for want of memory alone.
    pub fn of_line(alloc: Global, status: u8, line: &str) -> Result<Said, NoMemory>
        requires { IsCommandEnd status }
        ensures { IfOk result (λ said. said ≡ record { status = status; text = line.now }) }
    {
        let mut lines = Vec::new(alloc);
        let line = String::from_str(alloc, line)?;
        lines.push(line)?;
        Ok(Said::of_lines(status, lines))
    }

    /// The status that the command ends with, which is none of 2, 6 and 9.
    pub fn status(&self) -> u8
        ensures value { result ≡ self.now.status }
        ensures end { IsCommandEnd result }
    {
        self.status
    }

    /// Prints the text.
    pub fn print<W: Sink>(&self, out: &mut W) -> Result<(), OutsideErr>
        ensures printed { Modelled (Takes self.now.text result) (W.taken out.old)
            (W.taken out.new) }
        ensures causes { Causes OutsideErr.Failed result (W.Sink.faults out.old)
            (W.Sink.faults out.new) }
    {
        match &self.text {
            SaidText::Lines(lines) => {
                let printed = print(lines.as_slice(), out);
                printed
            }
            SaidText::Short(text) => {
                let printed = out.put(text.as_bytes());
                printed
            }
        }
    }
}
