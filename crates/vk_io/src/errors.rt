ghost use Rattle.std.specs.Prelude.{◌≡◌, Ok, Err, IfOk, OnErr};
ghost use Rattle.vk_io.specs.Faults.{Causes, told_as};

use thiserror::Error;
use vk_residue::NoMemory;

/// Why something outside of the program did not do what it was called for.
#[derive(Clone, Copy, Debug, PartialEq, Eq, Error)]
pub enum OutsideErr {
    /// The outside failed. The count of faults of what was called rose in this call.
    #[error("outside fault")]
    Failed,
    /// Want of memory.
    #[error("no memory")]
    NoMemory,
}

impl From<NoMemory> for OutsideErr {
    ghost use Rattle.vk_io.specs.declared.errors.OutsideErr.TheVariants.{NoMemory};

    ghost from_gives = { λ _ e. e ≡ NoMemory };

    fn from(_refused: NoMemory) -> OutsideErr {
        OutsideErr::NoMemory
    }
}

impl OutsideErr {
    /// The same refusal in the words of another error: its word for a fault of the outside, or its
    /// word for want of memory.
    pub fn told_as<E: Drop>(self, failed: E, no_memory: E) -> E
        ensures { result ≡ told_as failed no_memory self }
    {
        match self {
            OutsideErr::Failed => failed,
            OutsideErr::NoMemory => no_memory,
        }
    }
}

/// What an answer of the program's own memory is to the caller of a shelf or a sink: want of memory
/// is counted, and nothing else is.
pub fn count_want<T: Drop>(answer: Result<T, NoMemory>, wants: &mut u64) -> Result<T, OutsideErr>
    ensures value { IfOk answer (λ value. result ≡ Ok value) }
    ensures refused { OnErr answer (result ≡ Err OutsideErr.NoMemory) }
    ensures wants { Causes OutsideErr.NoMemory result wants.old wants.new }
{
    match answer {
        Ok(value) => Ok(value),
        Err(NoMemory) => {
            *wants = wants.saturating_add(1);
            Err(OutsideErr::NoMemory)
        }
    }
}
