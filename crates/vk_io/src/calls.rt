ghost use Rattle.std.specs.Prelude.{◌≡◌, [], OnOk, OnErr, IfErr};
ghost use Rattle.vk_io.specs.Faults.{CountsCall, fails_next, fails_too, after_call};

use crate::errors::OutsideErr;
use std::alloc::Global;
use std::marker::Model;
use vk_residue::NoMemory;

/// Counts the calls of an object in memory from 1 on, and holds the numbers of those that are to
/// fail. Both counts stay at the greatest u64 once they are there.
#[derive(Drop)]
pub struct CallCount {
    made: u64,
    failing: Vec<u64>,
    faults: u64,
}

impl Model for CallCount {
    ghost use Rattle.vk_io.specs.Faults.{Calls};

    ghost Value = { Calls };

    ghost view = { λ c. record { made = c.made; failing = c.failing.items; faults = c.faults } };
}

impl CallCount {
    /// No calls yet, and none that is to fail.
    pub fn new(alloc: Global) -> CallCount
        ensures { result ≡ record { made = 0; failing = []; faults = 0 } }
    {
        CallCount {
            made: 0,
            failing: Vec::new(alloc),
            faults: 0,
        }
    }

    /// Has the call of that number fail. Errs for want of memory alone, and then nothing changed.
    pub fn name(&mut self, call: u64) -> Result<(), NoMemory>
        ensures named { OnOk result (self.new ≡ fails_too call self.old) }
        ensures refused { OnErr result (self.new ≡ self.old) }
    {
        self.failing.push(call)?;
        Ok(())
    }

    /// Begins one call, which is counted. Errs where it is one that is to fail.
    pub fn begin(&mut self) -> Result<(), OutsideErr>
        ensures outside { IfErr result (λ refusal. refusal ≡ OutsideErr.Failed) }
        ensures counted { CountsCall result self.old self.new }
    {
        if self.count() {
            return Err(OutsideErr::Failed);
        }
        Ok(())
    }

    /// Counts one call, and says whether it is to fail.
    fn count(&mut self) -> bool
        ensures fails { result ≡ fails_next self.old }
        ensures counted { self.new ≡ after_call self.old }
    {
        self.made = self.made.saturating_add(1);
        let fails = self.failing.contains(&self.made);
        if fails {
            self.faults = self.faults.saturating_add(1);
        }
        fails
    }
}
