ghost use Rattle.std.specs.Prelude.{◌≡◌, ◌<◌, ◌≤◌, ◌↔◌, ◌||◌, ◌++◌, nat_lt, length, drop, option_map, IsTrue, IsErrOf, IfOk, OnErr};
ghost use Rattle.std.specs.FinMap as map;
ghost use Rattle.vk_io.specs.Faults.{Causes, fails_next, one_more};
ghost use Rattle.vk_io.specs.Files.{bytes_of, part_of, Creates, Appends};

use crate::errors::OutsideErr;
use crate::mem_shelf::MemShelf;
use crate::shelf::Shelf;

/// The most bytes that are read at once.
const MOST_READ: usize = 4096;

/// The most bytes that are appended at once. The largest lane of a reply has fewer.
const MOST_APPENDED: usize = 2097152;

/// A shelf in memory for tests of code that takes files in pieces: it fails where the shelf under
/// it does, where more than 4096 bytes are read at once, and where more than 2097152 are appended
/// at once. In the last two cases nothing changes but its count.
#[derive(Drop)]
pub struct PieceShelf {
    inner: MemShelf,
    faults: u64,
}

impl PieceShelf {
    /// Over the files of that shelf, with no faults of its own yet.
    pub fn over(inner: MemShelf) -> PieceShelf
        ensures inner { result.inner ≡ inner }
        ensures faults { result.faults ≡ 0 }
    {
        PieceShelf { inner, faults: 0 }
    }

    /// The shelf under it.
    pub fn inner(&self) -> &MemShelf
        ensures { result.now ≡ self.now.inner }
    {
        &self.inner
    }

    /// Counts a fault.
    fn fault(&mut self) -> OutsideErr
        ensures inner { self.new.inner ≡ self.old.inner }
        ensures counted { self.new.faults ≡ one_more self.old.faults }
        ensures fault { result ≡ OutsideErr.Failed }
    {
        self.faults = self.faults.saturating_add(1);
        OutsideErr::Failed
    }

    /// The answer of the shelf under it. A fault is counted here too.
    fn pass_on<T>(&mut self, answer: Result<T, OutsideErr>) -> Result<T, OutsideErr>
        ensures same { result ≡ answer }
        ensures inner { self.new.inner ≡ self.old.inner }
        ensures causes { Causes OutsideErr.Failed result self.old.faults self.new.faults }
    {
        match answer {
            Err(OutsideErr::Failed) => Err(self.fault()),
            other => other,
        }
    }
}

impl Shelf for PieceShelf {
    ghost use Rattle.std.specs.Prelude.{Some};

    ghost held = { λ s. Some s.inner.files };

    ghost faults = { λ s. s.faults };

    ghost wants = { λ s. s.inner.wants };

    ghost length_gives = { λ _ _ _ _. Unit {0} };

    fn length(&mut self, name: &str) -> Result<Option<u64>, OutsideErr>
        ensures answer { IfOk result
            (λ n. n ≡ option_map length (map.get self.old.inner.files name.now)) }
        ensures fails { IsErrOf result OutsideErr.Failed
            ↔ IsTrue (fails_next self.old.inner.calls) }
        ensures files { self.new.inner.files ≡ self.old.inner.files }
        ensures causes { Causes OutsideErr.Failed result self.old.faults self.new.faults }
        ensures wants { Causes OutsideErr.NoMemory result self.old.inner.wants
            self.new.inner.wants }
    {
        let answer = self.inner.length(name);
        self.pass_on(answer)
    }

    fn read_at(&mut self, name: &str, at: u64, into: &mut [u8]) -> Result<usize, OutsideErr>
        ensures bound { IfOk result (λ n. n ≤ length into.old) }
        ensures count { IfOk result
            (λ n. n ≡ length (part_of (bytes_of self.old.inner.files name.now) at
            (length into.old))) }
        ensures bytes { IfOk result (λ n. into.new
            ≡ part_of (bytes_of self.old.inner.files name.now) at (length into.old)
            ++ drop n into.old) }
        ensures unread { OnErr result (into.new ≡ into.old) }
        ensures too_large { 4096 < length into.old → self.new.inner ≡ self.old.inner }
        ensures fails { IsErrOf result OutsideErr.Failed
            ↔ IsTrue (nat_lt 4096 (length into.old) || fails_next self.old.inner.calls) }
        ensures files { self.new.inner.files ≡ self.old.inner.files }
        ensures causes { Causes OutsideErr.Failed result self.old.faults self.new.faults }
        ensures wants { Causes OutsideErr.NoMemory result self.old.inner.wants
            self.new.inner.wants }
    {
        if MOST_READ < into.len() {
            return Err(self.fault());
        }
        let answer = self.inner.read_at(name, at, into);
        self.pass_on(answer)
    }

    fn create(&mut self, name: &str) -> Result<(), OutsideErr>
        ensures created { Creates name.now result self.old.inner.files self.new.inner.files }
        ensures fails { IsErrOf result OutsideErr.Failed
            ↔ IsTrue (fails_next self.old.inner.calls) }
        ensures causes { Causes OutsideErr.Failed result self.old.faults self.new.faults }
        ensures wants { Causes OutsideErr.NoMemory result self.old.inner.wants
            self.new.inner.wants }
    {
        let answer = self.inner.create(name);
        self.pass_on(answer)
    }

    fn append(&mut self, name: &str, piece: &[u8]) -> Result<(), OutsideErr>
        ensures appended { Appends name.now piece.now result self.old.inner.files
            self.new.inner.files }
        ensures too_long { 2097152 < length piece.now → self.new.inner ≡ self.old.inner }
        ensures fails { IsErrOf result OutsideErr.Failed
            ↔ IsTrue (nat_lt 2097152 (length piece.now) || fails_next self.old.inner.calls) }
        ensures causes { Causes OutsideErr.Failed result self.old.faults self.new.faults }
        ensures wants { Causes OutsideErr.NoMemory result self.old.inner.wants
            self.new.inner.wants }
    {
        if MOST_APPENDED < piece.len() {
            return Err(self.fault());
        }
        let answer = self.inner.append(name, piece);
        self.pass_on(answer)
    }
}
