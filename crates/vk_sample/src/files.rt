// The files of a sample.
ghost use Rattle.std.specs.Prelude.{◌≡◌, IsErrOf, length};
ghost use Rattle.vk_judge.specs.Common.{Causes, MemoryWasWanting, Modelled, WritesAll};
ghost use Rattle.vk_words.specs.Names.{extract_seen};
ghost use Rattle.vk_sample.specs.Texts.{files_of, sample_names};

use std::alloc::Global;
use vk_board::head_text;
use vk_io::{OutsideErr, Shelf, write_files};
use vk_job::Job;
use vk_judge::TwoReplies;
use vk_report::SampleCase;
use vk_sample_parts::ProofFiles;

/// The names of the files.
pub fn sample_names() -> TwoReplies<'static>
    ensures { extract_seen result ≡ sample_names }
{
    TwoReplies {
        file: "sample-board",
        challenge1: "sample-challenge-1",
        reply1: "sample-reply-1",
        challenge2: "sample-challenge-2",
        reply2: "sample-reply-2",
    }
}

/// Writes the files of the sample, board and replies lane by lane. Files that stand there are
/// replaced.
#[tactic(auto, using(vk_judge::specs::Wanting::memory_was_wanting))]
pub fn write_sample<S: Shelf>(
    alloc: Global,
    shelf: &mut S,
    sample: &SampleCase,
    job: &Job,
) -> Result<(), OutsideErr>
    requires first { length sample.now.first.bits ≡ job.now.auction.lanes }
    requires second { length sample.now.second.bits ≡ job.now.auction.lanes }
    ensures written { Modelled (WritesAll (files_of sample.now job.now.auction) result)
        (S.held shelf.old) (S.held shelf.new) }
    ensures wanting { IsErrOf result OutsideErr.NoMemory → MemoryWasWanting }
    ensures causes { Causes OutsideErr.Failed result (S.Shelf.faults shelf.old)
        (S.Shelf.faults shelf.new) }
{
    let head = head_text(alloc, &job.head())?;
    let proof = job.proof();
    let files = ProofFiles {
        names: sample_names(),
        head: head.as_slice(),
        proof: &proof,
        first: &sample.first,
        second: &sample.second,
    };
    let written = write_files(alloc, shelf, &files);
    written
}
