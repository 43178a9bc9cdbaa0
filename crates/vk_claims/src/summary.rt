// What is said of a sample's claim.
ghost use Rattle.std.specs.Prelude.{◌≡◌, ◌++◌, IfOk, IsErr, Ok, length, string_bytes};
ghost use Rattle.std.specs.List.{flat_map};
ghost use Rattle.vk_commit.specs.Commitment.{TwoOpeningsSeen};
ghost use Rattle.vk_judge.specs.Wanting.{MemoryWasWanting};
ghost use Rattle.vk_bids.specs.Texts.{clash_text};
ghost use Rattle.vk_bids.specs.declared.extraction.Extraction.TheVariants as comes;
ghost use Rattle.vk_sample_parts.specs.Texts.{found_text, same_count};
ghost use Rattle.vk_claims.specs.Texts.{made_text, opened_said};

use crate::extractions::claim_extracted;
use crate::names::claim_names;
use std::alloc::Global;
use vk_bids::Extraction;
use vk_claim::{ClaimExtraction, OpenedClaim};
use vk_effect::Said;
use vk_plan::Plan;
use vk_residue::NoMemory;
use vk_sample_parts::{found_lines, push_two, same_count};
use vk_words::Kind;

/// The lines of the claim as it was made, by its circuit and the number of its lanes.
#[tactic(auto, using(vk_judge::specs::Wanting::memory_was_wanting))]
pub fn made_lines(
    alloc: Global,
    kind: Kind,
    number: u64,
    lanes: u32,
    plan: &Plan,
) -> Result<Vec<String>, NoMemory>
    ensures made { IfOk result (λ text. flat_map string_bytes text.items
        ≡ made_text kind number lanes plan.now) }
    ensures wanting { IsErr result → MemoryWasWanting }
{
    let mut text = Vec::new(alloc);
    let (name, inputs, wires, rows) = (kind.word(), plan.inputs(), plan.wires(), plan.rows());
    let first = format!(in alloc; "claim-sample {name} {number}\n")?;
    let second = format!(in alloc; "inputs {inputs} lanes {lanes} wires {wires} rows {rows}\n")?;
    push_two(&mut text, first, second)?;
    Ok(text)
}

/// The lines of values that both replies open, behind those of the claim as it was made.
fn values_lines(
    alloc: Global,
    made: Vec<String>,
    found: &OpenedClaim,
) -> Result<Vec<String>, NoMemory>
    ensures { IfOk result (λ text. flat_map string_bytes text.items
        ≡ flat_map string_bytes made.items
        ++ found_text (length found.now.opened.lanes) (same_count found.now.head.inputs found.now.opened.lanes)) }
{
    let lanes = found.opened.lanes.as_slice();
    let same = same_count(found.head.inputs as usize, lanes);
    let text = found_lines(alloc, made, lanes.len(), same)?;
    Ok(text)
}

/// What is said of what the replies come to as they were read back. A clash takes no memory.
#[tactic(auto, using(vk_judge::specs::Wanting::memory_was_wanting))]
pub fn say_read_back(
    alloc: Global,
    made: Vec<String>,
    extraction: &ClaimExtraction,
) -> Result<Said, NoMemory>
    ensures said { IfOk result (λ said. said
        ≡ opened_said (flat_map string_bytes made.items) extraction.now) }
    ensures clash { (two : TwoOpeningsSeen) → extraction.now ≡ comes.Clash two
        → result ≡ Ok (record { status = 3; text = clash_text two }) }
    ensures wanting { IsErr result → MemoryWasWanting }
{
    match extraction {
        Extraction::Bids(found) => {
            let lines = values_lines(alloc, made, found)?;
            Ok(Said::of_lines(0, lines))
        }
        other => {
            let said = claim_extracted(alloc, &claim_names(), other)?;
            Ok(said)
        }
    }
}
