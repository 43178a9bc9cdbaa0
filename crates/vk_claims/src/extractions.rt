//! What is said of what two replies to a claim file come to.

ghost use Rattle.std.specs.Prelude.{◌≡◌, IfOk, IsErr, Ok};
ghost use Rattle.vk_commit.specs.Commitment.{TwoOpeningsSeen};
ghost use Rattle.vk_judge.specs.Wanting.{MemoryWasWanting};
ghost use Rattle.vk_bids.specs.Texts.{clash_text};
ghost use Rattle.vk_bids.specs.declared.extraction.Extraction.TheVariants as comes;
ghost use Rattle.vk_words.specs.Names.{extract_seen};
ghost use Rattle.vk_claims.specs.Extractions.{claim_extraction_said};

use crate::verdicts::claim_refused;
use std::alloc::Global;
use vk_audit::same_challenge;
use vk_bids::{Extraction, clash_line};
use vk_claim::{ClaimExtraction, claim_extraction_lines};
use vk_effect::Said;
use vk_judge::TwoReplies;
use vk_residue::NoMemory;

/// What is said of a reply that is refused, or of what two accepted replies come to. A clash
/// takes no memory.
#[tactic(auto, using(vk_judge::specs::Wanting::memory_was_wanting))]
pub fn claim_extracted(
    alloc: Global,
    names: &TwoReplies<'_>,
    extraction: &ClaimExtraction,
) -> Result<Said, NoMemory>
    ensures clash { (two : TwoOpeningsSeen) → extraction.now ≡ comes.Clash two
        → result ≡ Ok (record { status = 3; text = clash_text two }) }
    ensures said { IfOk result
        (λ said. said ≡ claim_extraction_said (extract_seen names.now) extraction.now) }
    ensures wanting { IsErr result → MemoryWasWanting }
{
    match extraction {
        Extraction::Same => Ok(same_challenge()),
        Extraction::Clash(two) => Ok(Said::of_short(3, clash_line(two))),
        Extraction::Bids(found) => {
            let lines = claim_extraction_lines(alloc, found)?;
            Ok(Said::of_lines(0, lines))
        }
        Extraction::Refused { second, verdict } => {
            let said = claim_refused(alloc, names, *second, *verdict)?;
            Ok(said)
        }
    }
}
