ghost use Rattle.std.specs.Prelude.{◌≡◌, ℕ, ◌≤◌, List, Option, IsErrOf};
ghost use Rattle.vk_io.specs.Faults.{Causes};
ghost use Rattle.vk_io.specs.Files.{Modelled, Takes};

use crate::errors::OutsideErr;

/// What is printed goes here. A sink that is modelled has `taken`. No call changes whether it is.
pub trait Sink {
    /// The bytes taken so far, where they are modelled.
    ghost taken: { Self → Option (List ℕ) };

    /// How many faults of the outside were met. It never falls.
    ghost faults: { Self → ℕ };

    /// How many calls wanted memory that wasn't there. It never falls.
    ghost wants: { Self → ℕ };

    /// Takes the piece. Refused, a prefix of it was taken.
    fn put(&mut self, piece: &[u8]) -> Result<(), OutsideErr>
        ensures put { Modelled (Takes piece.now result) (taken self.old) (taken self.new) }
        ensures causes { Causes OutsideErr.Failed result (faults self.old) (faults self.new) }
        ensures wants { Causes OutsideErr.NoMemory result (wants self.old) (wants self.new) };
}
