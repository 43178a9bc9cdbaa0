ghost use Rattle.std.specs.Prelude.{◌≡◌, ℕ, IfOk, IsErr, IsErrOf, Ok};
ghost use Rattle.vk_judge.specs.Common.{Causes, MemoryWasWanting};
ghost use Rattle.vk_report.specs.Samples.{sample_of};
ghost use Rattle.vk_sample_parts.specs.Auctions.{auction_of};
ghost use Rattle.vk_sample_parts.specs.Effects.{ActsAs};
ghost use Rattle.vk_sample.specs.Samples.{IsSampleCase, effect_by, sample_on};

use crate::files::write_sample;
use crate::making::make_job;
use crate::summary::{made_lines, read_back};
use std::alloc::Global;
use vk_effect::Said;
use vk_io::{OutsideErr, Shelf};
use vk_job::Job;
use vk_report::{SampleCase, sample_case};
use vk_residue::NoMemory;

/// The case of the number.
#[tactic(auto, using(vk_judge::specs::Wanting::memory_was_wanting))]
fn case_of(alloc: Global, number: u64) -> Result<SampleCase, NoMemory>
    ensures case { IfOk result (λ case. case ≡ sample_of number) }
    ensures right { IfOk result IsSampleCase }
    ensures wanting { IsErr result → MemoryWasWanting }
{
    let case = sample_case(alloc, number)?;
    Ok(case)
}

/// Writes the files of the sample's job, and reads them back.
fn hold<S: Shelf>(
    alloc: Global,
    shelf: &mut S,
    number: u64,
    sample: &SampleCase,
    job: &Job,
) -> Result<Said, OutsideErr>
    requires right { IsSampleCase sample.now }
    requires made { auction_of sample.now ≡ Ok job.now.auction }
    ensures acts { ActsAs
        (λ ledger. effect_by (S.held shelf.old) ledger number sample.now (Ok job.now.auction))
        result (S.held shelf.old) (S.held shelf.new) }
    ensures wanting { IsErrOf result OutsideErr.NoMemory → MemoryWasWanting }
    ensures causes { Causes OutsideErr.Failed result (S.Shelf.faults shelf.old)
        (S.Shelf.faults shelf.new) }
{
    let made = made_lines(alloc, number, &job.head())?;
    write_sample(alloc, shelf, sample, job)?;
    let said = read_back(alloc, shelf, made);
    said
}

/// Makes the auction of a number with its board and two replies, writes them, reads them back, and
/// says what they come to. Files that stand under their names are replaced; where a seed is dry
/// none is written.
pub fn sample<S: Shelf>(alloc: Global, shelf: &mut S, number: u64) -> Result<Said, OutsideErr>
    ensures acts { ActsAs (λ ledger. sample_on (S.held shelf.old) ledger number) result
        (S.held shelf.old) (S.held shelf.new) }
    ensures wanting { IsErrOf result OutsideErr.NoMemory → MemoryWasWanting }
    ensures causes { Causes OutsideErr.Failed result (S.Shelf.faults shelf.old)
        (S.Shelf.faults shelf.new) }
{
    let sample = case_of(alloc, number)?;
    match make_job(alloc, &sample) {
        Ok(job) => {
            let said = hold(alloc, shelf, number, &sample, &job);
            said
        }
        Err(dry) => {
            let said = dry.say()?;
            Ok(said)
        }
    }
}
