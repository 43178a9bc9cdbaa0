// What is printed of the values that two replies to a claim file give.
ghost use Rattle.std.specs.Prelude.{◌≡◌, IfOk, string_bytes};
ghost use Rattle.std.specs.List.{flat_map};
ghost use Rattle.vk_claim.specs.Printing.{claim_extraction_text, kind_text};

use crate::extraction::OpenedClaim;
use std::alloc::Global;
use vk_bids::{add_agreements, add_lanes};
use vk_residue::NoMemory;
use vk_words::Kind;

/// The lines of an extraction: the values of each lane, the kind of the public part, of each seal
/// whether its values are equal in all lanes, and the end.
pub fn claim_extraction_lines(alloc: Global, found: &OpenedClaim) -> Result<Vec<String>, NoMemory>
    ensures { IfOk result (λ lines. flat_map string_bytes lines.items
        ≡ claim_extraction_text found.now) }
{
    let mut lines = Vec::new(alloc);
    let lanes = found.opened.lanes.as_slice();
    add_lanes(alloc, "value", lanes, &mut lines)?;
    lines.push(kind_line(alloc, found.head.kind)?)?;
    add_agreements(alloc, found.opened.statement.seals(), lanes, &mut lines)?;
    let end = String::from_str(alloc, "end\n")?;
    lines.push(end)?;
    Ok(lines)
}

/// The line of a kind.
fn kind_line(alloc: Global, kind: Kind) -> Result<String, NoMemory>
    ensures { IfOk result (λ line. string_bytes line ≡ kind_text kind) }
{
    let word = kind.word();
    let line = format!(in alloc; "kind {word}\n")?;
    Ok(line)
}
