ghost use Rattle.std.specs.Prelude.{◌≡◌, ℕ, ◌≤◌, ◌++◌, [], ◌∷◌, OnOk, OnErr};
ghost use Rattle.vk_io.specs.Faults.{Causes, CountsCall, fails_too};
ghost use Rattle.vk_io.specs.Files.{Modelled, Takes};

use crate::appending::put_behind;
use crate::calls::CallCount;
use crate::errors::{OutsideErr, count_want};
use crate::sink::Sink;
use std::alloc::Global;
use std::marker::Model;
use vk_residue::NoMemory;

/// A sink in memory, which is modelled. Calls of `put` are counted from 1 over its life, and
/// those that [`MemSink::fail_at`] named fail and take nothing.
#[derive(Drop)]
pub struct MemSink {
    taken: Vec<u8>,
    calls: CallCount,
    wants: u64,
}

impl Model for MemSink {
    ghost use Rattle.vk_io.specs.Memory.{MemoryBytes};

    ghost Value = { MemoryBytes };

    ghost view = { λ s. record { taken = s.taken.items; calls = s.calls; wants = s.wants } };
}

impl MemSink {
    /// Nothing taken, and no call that is to fail.
    pub fn new(alloc: Global) -> MemSink
        ensures { result ≡ record {
          taken = [];
          calls = record { made = 0; failing = []; faults = 0 };
          wants = 0;
        } }
    {
        MemSink {
            taken: Vec::new(alloc),
            calls: CallCount::new(alloc),
            wants: 0,
        }
    }

    /// The bytes taken so far.
    pub fn bytes(&self) -> &[u8]
        ensures { result.now ≡ self.now.taken }
    {
        self.taken.as_slice()
    }

    /// Has the `put` of that number fail, counted from 1 over the sink's life. Errs for want of
    /// memory alone, and then nothing changed.
    pub fn fail_at(&mut self, call: u64) -> Result<(), NoMemory>
        ensures named { OnOk result
            (self.new ≡ record self.old { calls = fails_too call self.old.calls }) }
        ensures refused { OnErr result (self.new ≡ self.old) }
    {
        self.calls.name(call)
    }
}

impl Sink for MemSink {
    ghost use Rattle.std.specs.Prelude.{Some};

    ghost taken = { λ s. Some s.taken };

    ghost faults = { λ s. s.calls.faults };

    ghost wants = { λ s. s.wants };

    fn put(&mut self, piece: &[u8]) -> Result<(), OutsideErr>
        ensures put { OnOk result (self.new.taken ≡ self.old.taken ++ piece.now) }
        ensures refused { OnErr result (self.new.taken ≡ self.old.taken) }
        ensures counted { CountsCall result self.old.calls self.new.calls }
        ensures wants { Causes OutsideErr.NoMemory result self.old.wants self.new.wants }
    {
        self.calls.begin()?;
        let answer = put_behind(&mut self.taken, piece);
        count_want(answer, &mut self.wants)
    }
}
