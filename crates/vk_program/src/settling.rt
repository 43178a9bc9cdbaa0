//! Files of which only a last call tells whether what was written is where it belongs.

ghost use Rattle.std.specs.Prelude.{◌≡◌};
ghost use Rattle.vk_io.specs.Faults.{Causes};

use std::rt::Files;
use vk_files::{FileShelf, NamedFault};
use vk_io::{MemShelf, OutsideErr, Shelf};

/// A shelf whose last written file is settled when it is asked: only then is its last error told.
pub trait Settle: Shelf {
    /// Sees that what was written last is where it belongs. Errs where it isn't.
    fn settle(&mut self) -> Result<(), OutsideErr>
        ensures held { Self.held self.new ≡ Self.held self.old }
        ensures causes { Causes OutsideErr.Failed result (Self.faults self.old)
            (Self.faults self.new) };

    /// The last fault, and the file that it is of, for a person. None where there was none.
    fn last_fault(&self) -> Option<NamedFault<'_>>;
}

impl<R: Files> Settle for FileShelf<'_, R> {
    fn settle(&mut self) -> Result<(), OutsideErr> {
        FileShelf::settle(self)
    }

    fn last_fault(&self) -> Option<NamedFault<'_>> {
        FileShelf::last_fault(self)
    }
}

/// Files in memory are where they belong.
impl Settle for MemShelf {
    fn settle(&mut self) -> Result<(), OutsideErr> {
        Ok(())
    }

    fn last_fault(&self) -> Option<NamedFault<'_>> {
        None
    }
}
