// The auction of a sample.
ghost use Rattle.std.specs.Prelude.{◌≡◌, IsErrOf};
ghost use Rattle.vk_judge.specs.Common.{Gives, MemoryWasWanting};
ghost use Rattle.vk_report.specs.Samples.{IsSampleCase};
ghost use Rattle.vk_sample_parts.specs.Auctions.{auction_of, dry_of};

use std::alloc::Global;
use vk_job::Job;
use vk_keeper::{Auction, Phase};
use vk_report::SampleCase;
use vk_sample_parts::{SampleErr, seal_rows};

/// The job of the sample's auction, which is proved with the auctioneer's seed.
#[tactic(auto, unfolding(vk_sample_parts::specs::Auctions::auction_of), using(vk_judge::specs::Wanting::memory_was_wanting))]
pub fn make_job(alloc: Global, sample: &SampleCase) -> Result<Job, SampleErr>
    requires { IsSampleCase sample.now }
    ensures made { Gives dry_of (λ job. job.auction) result (auction_of sample.now) }
    ensures wanting { IsErrOf result SampleErr.NoMemory → MemoryWasWanting }
{
    let seals = seal_rows(alloc, sample)?;
    let auction = Auction {
        id: sample.auction,
        version: 1,
        width: sample.width,
        lanes: sample.lanes,
        reserve: 0,
        phase: Phase::Proved { seed: sample.seed },
        seals,
    };
    let job = Job::of(alloc, auction)?;
    Ok(job)
}
