ghost use Rattle.std.specs.Prelude.{◌≡◌, IfSome, IsErr, IsSome, Ok, OnOk};
ghost use Rattle.vk_sample_parts.specs.Auctions.{dry_of, of_job};
ghost use Rattle.vk_sample_parts.specs.Texts.{dry_said};

use std::alloc::AllocFailed;
use vk_effect::{Said, bidder_dry_line, house_dry_line};
use vk_job::JobErr;
use vk_residue::NoMemory;

/// Why there is no auction of a sample.
#[derive(Clone, Copy, Debug, PartialEq, Eq)]
pub enum SampleErr {
    /// The residue of that lane, the first such, can't be drawn from a bidder's seed. Lanes count
    /// from 1.
    DryBidder { lane: u32 },
    /// The tape of that wire, the first such, can't be drawn from the auctioneer's seed. Wires
    /// count from 0.
    DryHouse { lane: u32, wire: u32 },
    /// Want of memory.
    NoMemory,
}

impl<T: Drop> From<AllocFailed<T>> for SampleErr {
    ghost use Rattle.std.specs.Prelude.{◌≡◌};
    ghost use Rattle.vk_sample_parts.specs.declared.errors.SampleErr.TheVariants.{NoMemory as OutOfMemory};

    ghost from_gives = { λ _ e. e ≡ OutOfMemory };

    fn from(_refused: AllocFailed<T>) -> SampleErr {
        SampleErr::NoMemory
    }
}

impl From<NoMemory> for SampleErr {
    ghost use Rattle.vk_sample_parts.specs.declared.errors.SampleErr.TheVariants.{NoMemory as OutOfMemory};
    ghost use Rattle.std.specs.Prelude.{◌≡◌};

    ghost from_gives = { λ _ e. e ≡ OutOfMemory };

    fn from(_refused: NoMemory) -> SampleErr {
        SampleErr::NoMemory
    }
}

impl From<JobErr> for SampleErr {
    ghost from_gives = { λ refused e. e ≡ of_job refused };

    fn from(refused: JobErr) -> SampleErr {
        let JobErr::DrySeed { lane, wire } = refused else {
            return SampleErr::NoMemory;
        };
        SampleErr::DryHouse { lane, wire }
    }
}

impl SampleErr {
    /// What is said of a seed that is dry. Takes no memory, and errs exactly where that was wanted
    /// before.
    pub fn say(self) -> Result<Said, NoMemory>
        ensures said { IfSome (dry_of self) (λ dry. result ≡ Ok (dry_said dry)) }
        ensures dry { OnOk result (IsSome (dry_of self)) }
        ensures memory { IsErr result → self ≡ SampleErr.NoMemory }
    {
        match self {
            SampleErr::DryBidder { lane } => Ok(Said::of_short(8, bidder_dry_line(lane))),
            SampleErr::DryHouse { lane, wire } => Ok(Said::of_short(8, house_dry_line(lane, wire))),
            SampleErr::NoMemory => Err(NoMemory),
        }
    }
}
