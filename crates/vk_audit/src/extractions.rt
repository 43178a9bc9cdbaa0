//! What is said of what two replies to a board come to.

ghost use Rattle.std.specs.Prelude.{◌≡◌, ℕ, IfOk, IsErr, IsErrOf, Ok, Result};
ghost use Rattle.vk_commit.specs.Commitment.{TwoOpeningsSeen};
ghost use Rattle.vk_judge.specs.Common.{Causes, Gives, MemoryWasWanting, unread_file};
ghost use Rattle.vk_judge.specs.declared.answers.VErr.{VErr};
ghost use Rattle.vk_bids.specs.Extraction.{Extraction as BoardExtraction};
ghost use Rattle.vk_bids.specs.Texts.{clash_text};
ghost use Rattle.vk_words.specs.Names.{extract_seen};
ghost use Rattle.vk_audit.specs.Extractions.{extraction_said};
ghost use Rattle.vk_audit.specs.Verdicts.{answer_said, name_of, unread_said};

use crate::verdicts::{same_challenge, say_verdict, unread};
use std::alloc::Global;
use vk_bids::{Extraction, clash_line, extraction_lines};
use vk_effect::Said;
use vk_io::OutsideErr;
use vk_judge::{TwoReplies, VErr};
use vk_residue::NoMemory;

/// What is said of a reply that isn't accepted, or of what two accepted replies come to. A clash
/// takes no memory.
#[tactic(auto, using(vk_judge::specs::Wanting::memory_was_wanting))]
pub fn say_extraction(
    alloc: Global,
    names: &TwoReplies<'_>,
    extraction: &Extraction,
) -> Result<Said, NoMemory>
    ensures said { IfOk result
        (λ said. said ≡ extraction_said (extract_seen names.now) extraction.now) }
    ensures clash { (two : TwoOpeningsSeen) → extraction.now ≡ Extraction.Clash two
        → result ≡ Ok (record { status = 3; text = clash_text two }) }
    ensures wanting { IsErr result → MemoryWasWanting }
{
    match extraction {
        Extraction::Refused { second, verdict } => {
            let said = say_verdict(alloc, names, *second, *verdict)?;
            Ok(said)
        }
        Extraction::Same => Ok(same_challenge()),
        Extraction::Clash(two) => Ok(Said::of_short(3, clash_line(two))),
        Extraction::Bids(found) => {
            let lines = extraction_lines(alloc, found)?;
            Ok(Said::of_lines(0, lines))
        }
    }
}

/// What is said of what the files came to, or of the first that is missing or too long. A failure
/// is handed on.
pub fn extract_answered(
    alloc: Global,
    names: &TwoReplies<'_>,
    answer: Result<Extraction, VErr>,
) -> Result<Said, OutsideErr>
    ensures said { (expected : Result BoardExtraction VErr)
        → Gives unread_file (λ extraction. extraction) answer expected
        → IfOk result (λ said. said
        ≡ answer_said (extraction_said (extract_seen names.now))
        (unread_said (name_of (extract_seen names.now))) expected) }
    ensures clash { (two : TwoOpeningsSeen) → answer ≡ Ok (Extraction.Clash two)
        → result ≡ Ok (record { status = 3; text = clash_text two }) }
    ensures wanting { IsErrOf result OutsideErr.NoMemory → MemoryWasWanting }
    ensures causes { (before after : ℕ) → Causes VErr.Failed answer before after
        → Causes OutsideErr.Failed result before after }
{
    match answer {
        Ok(extraction) => {
            let said = say_extraction(alloc, names, &extraction)?;
            Ok(said)
        }
        Err(fault) => {
            let said = unread(alloc, names, fault)?;
            Ok(said)
        }
    }
}
