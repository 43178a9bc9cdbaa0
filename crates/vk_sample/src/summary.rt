// What is said of a sample.
ghost use Rattle.std.specs.Prelude.{◌≡◌, ◌++◌, IfOk, IsErr, IsErrOf, Ok, OnOk, flat_map, length, string_bytes};
ghost use Rattle.vk_commit.specs.Commitment.{TwoOpeningsSeen};
ghost use Rattle.vk_bids.specs.Texts.{clash_text, sale_line};
ghost use Rattle.vk_judge.specs.Common.{MemoryWasWanting, OnlyReads};
ghost use Rattle.vk_board.specs.Values.{IsHead};
ghost use Rattle.vk_report.specs.Reports.{head_numbers};
ghost use Rattle.vk_honest.specs.Sizes.{board_lines, reply_lines};
ghost use Rattle.vk_audit.specs.Audits.{Says};
ghost use Rattle.vk_sample_parts.specs.Texts.{found_text, same_count};
ghost use Rattle.vk_sample.specs.Texts.{counts_text, made_text, opened_said, read_said, sample_read, size_line};

use crate::files::sample_names;
use std::alloc::Global;
use vk_audit::{say_extraction, unread};
use vk_bids::{Extracted, Extraction, extract, sale_line};
use vk_board::Head;
use vk_effect::Said;
use vk_io::{OutsideErr, Shelf};
use vk_residue::NoMemory;
use vk_sample_parts::{found_lines, push, push_two, same_count};
use vk_vickrey::{row_count, wire_count};

/// How many lines the board has, which is of version 1.
fn board_lines(head: &Head) -> u32
    requires right { IsHead head.now }
    requires first { head.now.version ≡ 1 }
    ensures { result ≡ board_lines (head_numbers head.now) head.now.lanes }
{
    let lane = 1 + (wire_count(head.seals, head.width) - head.seals) + row_count(head.seals);
    7 + head.seals * (1 + head.lanes) + head.lanes * lane + 1
}

/// How many lines a reply to it has.
fn reply_lines(head: &Head) -> u32
    requires right { IsHead head.now }
    requires first { head.now.version ≡ 1 }
    ensures { result ≡ reply_lines (head_numbers head.now) head.now.lanes }
{
    2 + head.lanes * (1 + wire_count(head.seals, head.width)) + 1
}

/// The lines of the auction as it was made, which is of version 1.
#[tactic(auto, using(vk_judge::specs::Wanting::memory_was_wanting))]
pub fn made_lines(alloc: Global, number: u64, head: &Head) -> Result<Vec<String>, NoMemory>
    requires right { IsHead head.now }
    requires first { head.now.version ≡ 1 }
    ensures made { IfOk result
        (λ lines. flat_map string_bytes lines.items ≡ made_text number head.now) }
    ensures wanting { IsErr result → MemoryWasWanting }
{
    let mut lines = Vec::new(alloc);
    push(&mut lines, format!(in alloc; "sample {number}\n")?)?;
    push_size(alloc, &mut lines, head)?;
    push_counts(alloc, &mut lines, head)?;
    push_sale(alloc, &mut lines, head)?;
    Ok(lines)
}

/// The numbers of the head.
fn push_size(alloc: Global, lines: &mut Vec<String>, head: &Head) -> Result<(), NoMemory>
    ensures { OnOk result (flat_map string_bytes lines.new.items
        ≡ flat_map string_bytes lines.old.items ++ size_line head.now) }
{
    let Head {
        seals,
        width,
        lanes,
        ..
    } = *head;
    let line = format!(in alloc; "seals {seals} width {width} lanes {lanes}\n")?;
    push(lines, line)?;
    Ok(())
}

/// How many lines the files have.
fn push_counts(alloc: Global, lines: &mut Vec<String>, head: &Head) -> Result<(), NoMemory>
    requires right { IsHead head.now }
    requires first { head.now.version ≡ 1 }
    ensures { OnOk result (flat_map string_bytes lines.new.items
        ≡ flat_map string_bytes lines.old.items
        ++ counts_text (board_lines (head_numbers head.now) head.now.lanes) (reply_lines (head_numbers head.now) head.now.lanes)) }
{
    let board = board_lines(head);
    let board = format!(in alloc; "board lines {board}\n")?;
    let reply = reply_lines(head);
    let reply = format!(in alloc; "reply lines {reply}\n")?;
    push_two(lines, board, reply)?;
    Ok(())
}

/// The sale.
fn push_sale(alloc: Global, lines: &mut Vec<String>, head: &Head) -> Result<(), NoMemory>
    ensures { OnOk result (flat_map string_bytes lines.new.items
        ≡ flat_map string_bytes lines.old.items ++ sale_line head.now) }
{
    let line = sale_line(alloc, head)?;
    push(lines, line)?;
    Ok(())
}

/// Those of bids that both replies open.
fn bids_lines(alloc: Global, made: Vec<String>, found: &Extracted) -> Result<Vec<String>, NoMemory>
    ensures { IfOk result (λ text. flat_map string_bytes text.items
        ≡ flat_map string_bytes made.items
        ++ found_text (length found.now.lanes) (same_count (length found.now.front.seals) found.now.lanes)) }
{
    let lanes = found.lanes.as_slice();
    let same = same_count(found.front.seals.len(), lanes);
    let text = found_lines(alloc, made, lanes.len(), same)?;
    Ok(text)
}

/// What is said of what the replies come to as they were read back. A clash takes no memory.
#[tactic(auto, using(vk_judge::specs::Wanting::memory_was_wanting))]
fn say_read_back(
    alloc: Global,
    made: Vec<String>,
    extraction: &Extraction,
) -> Result<Said, NoMemory>
    ensures said { IfOk result
        (λ said. said ≡ opened_said (flat_map string_bytes made.items) extraction.now) }
    ensures clash { (two : TwoOpeningsSeen) → extraction.now ≡ Extraction.Clash two
        → result ≡ Ok (record { status = 3; text = clash_text two }) }
    ensures wanting { IsErr result → MemoryWasWanting }
{
    let Extraction::Bids(found) = extraction else {
        let said = say_extraction(alloc, &sample_names(), extraction)?;
        return Ok(said);
    };
    let lines = bids_lines(alloc, made, found)?;
    Ok(Said::of_lines(0, lines))
}

/// Reads the files back. Where both replies are accepted and open bids, the summary is said, behind
/// these lines of the auction as it was made; else what `extract` says.
pub fn read_back<S: Shelf>(
    alloc: Global,
    shelf: &mut S,
    made: Vec<String>,
) -> Result<Said, OutsideErr>
    ensures said { Says (S.held shelf.old) result
        (λ files. read_said (flat_map string_bytes made.items) (sample_read files)) }
    ensures wanting { IsErrOf result OutsideErr.NoMemory → MemoryWasWanting }
    ensures shelf { OnlyReads S.held S.Shelf.faults OutsideErr.Failed result shelf.old shelf.new }
{
    let names = sample_names();
    let said = match extract(alloc, shelf, &names) {
        Ok(extraction) => say_read_back(alloc, made, &extraction)?,
        Err(fault) => unread(alloc, &names, fault)?,
    };
    Ok(said)
}
