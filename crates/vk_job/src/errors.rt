ghost use Rattle.std.specs.Prelude.{◌≡◌};
ghost use Rattle.vk_job.specs.declared.errors.JobErr.TheVariants.{NoMemory as MemoryRefused};

use vk_residue::NoMemory;

/// Why an honest proof can't be made, and so no job of an auction.
#[derive(Clone, Copy, Debug, PartialEq, Eq)]
pub enum JobErr {
    /// The tape of that wire can't be drawn from the seed: the first such wire, in the first such
    /// lane. Lanes count from 1, wires from 0.
    DrySeed { lane: u32, wire: u32 },
    /// Want of memory.
    NoMemory,
}

impl From<NoMemory> for JobErr {
    ghost from_gives = { λ _ e. e ≡ MemoryRefused };

    fn from(_refused: NoMemory) -> JobErr {
        JobErr::NoMemory
    }
}
