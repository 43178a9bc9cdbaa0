//! What a command does that asks no house.

ghost use Rattle.std.specs.Prelude.{◌≡◌, ◌∷◌, ◌++◌, [], IfOk, Option};
ghost use Rattle.vk_io.specs.Faults.{Causes};
ghost use Rattle.vk_keeper.specs.Ledgers.{Ledger};
ghost use Rattle.vk_effect.specs.Effects.{does, only_says, stores};
ghost use Rattle.vk_effect.specs.Ends.{Acts};

use crate::said::Said;
use std::alloc::Global;
use std::marker::Model;
use vk_io::{FileText, OutsideErr, Shelf, write_files};
use vk_residue::NoMemory;
use vk_seq::Seq;

/// What a command does that asks no house: the files that it writes, one after another, and what it
/// says then.
#[derive(Drop)]
pub struct Deed {
    said: Said,
    files: Seq<FileText>,
}

impl Model for Deed {
    ghost use Rattle.vk_io.specs.Writing.{texts_of, whole_files};
    ghost use Rattle.vk_effect.specs.Effects.{DeedValue};

    ghost Value = { DeedValue };

    ghost view = { λ d. record { said = d.said; writes = texts_of (whole_files d.files) } };
}

impl Deed {
    /// Says this, and writes no file. Takes no memory.
    pub fn says(alloc: Global, said: Said) -> Deed
        ensures { result ≡ only_says said }
    {
        Deed {
            said,
            files: Seq::new(alloc),
        }
    }

    /// The same, with a file of that text behind the others. Errs for want of memory alone.
    pub fn with_file(self, alloc: Global, name: &str, text: Vec<u8>) -> Result<Deed, NoMemory>
        ensures said { IfOk result (λ deed. deed.said ≡ self.said) }
        ensures writes { IfOk result
            (λ deed. deed.writes ≡ self.writes ++ (name.now, text.items) ∷ []) }
    {
        let Deed { said, mut files } = self;
        let name = String::from_str(alloc, name)?;
        let text = Seq::from_vec(text);
        files.push(FileText { name, text })?;
        Ok(Deed { said, files })
    }

    /// Writes the files, each created and then filled, and hands on what is to be said.
    pub fn carry_out<S: Shelf>(self, alloc: Global, shelf: &mut S) -> Result<Said, OutsideErr>
        ensures acts { (ledger : Option Ledger) → Acts result (does ledger self)
            (stores (S.held shelf.old) ledger) (stores (S.held shelf.new) ledger) }
        ensures causes { Causes OutsideErr.Failed result (S.Shelf.faults shelf.old)
            (S.Shelf.faults shelf.new) }
    {
        let Deed { said, files } = self;
        write_files(alloc, shelf, &files)?;
        Ok(said)
    }
}
