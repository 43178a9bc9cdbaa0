ghost use Rattle.std.specs.Prelude.{◌≡◌, Ok, Err, IfOk, OnErr};
ghost use Rattle.vk_io.specs.Faults.{Causes};
ghost use Rattle.vk_files.specs.Counting.{CountsOnce};

use crate::faults::FaultCount;
use std::io;
use vk_io::OutsideErr;

/// What an outcome of the system is to its caller: an error is counted, and nothing else is.
pub fn count_fault<T>(outcome: io::Result<T>, faults: &mut FaultCount) -> Result<T, OutsideErr>
    ensures value { IfOk outcome (λ value. result ≡ Ok value) }
    ensures fault { OnErr outcome (result ≡ Err OutsideErr.Failed) }
    ensures counted { CountsOnce result faults.old faults.new }
{
    match outcome {
        Ok(value) => Ok(value),
        Err(error) => {
            faults.count(&error);
            Err(OutsideErr::Failed)
        }
    }
}

/// The same answer. Want of memory is counted, and nothing else is.
pub fn with_want<T>(answer: Result<T, OutsideErr>, wants: &mut u64) -> Result<T, OutsideErr>
    ensures same { result ≡ answer }
    ensures wants { Causes OutsideErr.NoMemory result wants.old wants.new }
{
    if matches!(answer, Err(OutsideErr::NoMemory)) {
        *wants = wants.saturating_add(1);
    }
    answer
}
