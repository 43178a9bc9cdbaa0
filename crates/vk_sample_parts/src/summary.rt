// What is said of what both replies open.
ghost use Rattle.std.specs.Prelude.{◌≡◌, ◌++◌, IfOk, OnOk, flat_map, string_bytes};
ghost use Rattle.vk_sample_parts.specs.Texts.{accepted_text, found_text, opened_text, same_count};

use std::alloc::Global;
use vk_bids::{LaneBids, has_one_bid};
use vk_residue::NoMemory;

/// One line more.
pub fn push(lines: &mut Vec<String>, line: String) -> Result<(), NoMemory>
    ensures { OnOk result (flat_map string_bytes lines.new.items
        ≡ flat_map string_bytes lines.old.items ++ string_bytes line) }
{
    lines.push(line)?;
    Ok(())
}

/// Two lines more.
pub fn push_two(lines: &mut Vec<String>, first: String, second: String) -> Result<(), NoMemory>
    ensures { OnOk result (flat_map string_bytes lines.new.items
        ≡ flat_map string_bytes lines.old.items ++ (string_bytes first ++ string_bytes second)) }
{
    push(lines, first)?;
    push(lines, second)?;
    Ok(())
}

/// How many of so many seals have one bid in all lanes.
pub fn same_count(seals: usize, lanes: &[LaneBids]) -> usize
    ensures { result ≡ same_count seals lanes.now }
{
    (0..seals)
        .filter(|index| has_one_bid(*index, lanes))
        .count()
}

/// The lines of what both replies open, behind those of what was made: in how many lanes, and of
/// how many seals the same in all of these.
pub fn found_lines(
    alloc: Global,
    made: Vec<String>,
    lanes: usize,
    same: usize,
) -> Result<Vec<String>, NoMemory>
    ensures { IfOk result (λ text. flat_map string_bytes text.items
        ≡ flat_map string_bytes made.items ++ found_text lanes same) }
{
    let mut text = made;
    push_accepted(alloc, &mut text)?;
    push_opened(alloc, lanes, same, &mut text)?;
    Ok(text)
}

/// That both replies are accepted.
fn push_accepted(alloc: Global, lines: &mut Vec<String>) -> Result<(), NoMemory>
    ensures { OnOk result (flat_map string_bytes lines.new.items
        ≡ flat_map string_bytes lines.old.items ++ accepted_text) }
{
    let first = format!(in alloc; "verify 1 accepted\n")?;
    let second = format!(in alloc; "verify 2 accepted\n")?;
    push_two(lines, first, second)?;
    Ok(())
}

/// In how many lanes bids were opened, and of how many seals they are equal in all of these.
fn push_opened(
    alloc: Global,
    lanes: usize,
    same: usize,
    lines: &mut Vec<String>,
) -> Result<(), NoMemory>
    ensures { OnOk result (flat_map string_bytes lines.new.items
        ≡ flat_map string_bytes lines.old.items ++ opened_text lanes same) }
{
    let first = format!(in alloc; "extract lanes {lanes} same {same}\n")?;
    let second = format!(in alloc; "end\n")?;
    push_two(lines, first, second)?;
    Ok(())
}
