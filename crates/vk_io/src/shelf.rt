ghost use Rattle.std.specs.Prelude.{◌≡◌, ℕ, ◌≤◌, ◌++◌, List, length, drop, Option, Result, option_map, IfSome, IfOk, IsErrOf};
ghost use Rattle.std.specs.FinMap as map;
ghost use Rattle.vk_io.specs.declared.errors.OutsideErr.{OutsideErr};
ghost use Rattle.vk_io.specs.Faults.{Causes};
ghost use Rattle.vk_io.specs.Reads.{OnlyReads};
ghost use Rattle.vk_io.specs.Files.{Files, bytes_of, part_of, Modelled, Creates, Appends};

use crate::errors::OutsideErr;

/// Files under names. A shelf that is modelled has `held`; of one that isn't only counts and bounds
/// are known. No call changes whether it is modelled.
pub trait Shelf {
    /// The files, where they are modelled.
    ghost held: { Self → Option Files };

    /// How many faults of the outside were met. It never falls.
    ghost faults: { Self → ℕ };

    /// How many calls wanted memory that wasn't there. It never falls.
    ghost wants: { Self → ℕ };

    /// Whether `length` of that name may answer so, and leave the shelf like this.
    ghost length_gives: { Self → List ℕ → Result (Option ℕ) OutsideErr → Self → Type 0 };

    /// The number of bytes of the named file. None where the name isn't held.
    fn length(&mut self, name: &str) -> Result<Option<u64>, OutsideErr>
        ensures answer { IfSome (held self.old)
            (λ files. IfOk result (λ n. n ≡ option_map length (map.get files name.now))) }
        ensures gave { length_gives self.old name.now result self.new }
        ensures shelf { OnlyReads held faults OutsideErr.Failed result self.old self.new }
        ensures wants { Causes OutsideErr.NoMemory result (wants self.old) (wants self.new) };

    /// Puts the bytes of the named file from byte `at` on into the front of `into`, as many as are
    /// left or fit, and answers their number. The rest of `into` stays. 0 where the name isn't
    /// held.
    fn read_at(&mut self, name: &str, at: u64, into: &mut [u8]) -> Result<usize, OutsideErr>
        ensures bound { IfOk result (λ n. n ≤ length into.old) }
        ensures count { IfSome (held self.old)
            (λ files. IfOk result (λ n.
            n ≡ length (part_of (bytes_of files name.now) at (length into.old)))) }
        ensures bytes { IfSome (held self.old)
            (λ files. IfOk result (λ n.
            into.new ≡ part_of (bytes_of files name.now) at (length into.old) ++ drop n into.old)) }
        ensures shelf { OnlyReads held faults OutsideErr.Failed result self.old self.new }
        ensures wants { Causes OutsideErr.NoMemory result (wants self.old) (wants self.new) };

    /// Makes the name hold no bytes, whether or not it was held. Refused, the file is as before or
    /// holds nothing.
    fn create(&mut self, name: &str) -> Result<(), OutsideErr>
        ensures created { Modelled (Creates name.now result) (held self.old) (held self.new) }
        ensures causes { Causes OutsideErr.Failed result (faults self.old) (faults self.new) }
        ensures wants { Causes OutsideErr.NoMemory result (wants self.old) (wants self.new) };

    /// Adds the piece at the end of the named file, which counts as empty where it isn't held.
    /// Refused, the file has grown by a prefix of the piece, or is as before.
    fn append(&mut self, name: &str, piece: &[u8]) -> Result<(), OutsideErr>
        ensures appended { Modelled (Appends name.now piece.now result) (held self.old)
            (held self.new) }
        ensures causes { Causes OutsideErr.Failed result (faults self.old) (faults self.new) }
        ensures wants { Causes OutsideErr.NoMemory result (wants self.old) (wants self.new) };
}
