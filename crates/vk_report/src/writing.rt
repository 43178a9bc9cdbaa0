ghost use Rattle.std.specs.Prelude.{◌≡◌, ◌++◌, [], ◌∷◌, codes, decimal, IfOk, OnOk, string_bytes};
ghost use Rattle.std.specs.List.{flat_map};
ghost use Rattle.vk_lines.specs.Common.{hex_text, line, spaced};
ghost use Rattle.vk_board.specs.Texts.{reserve_text, winner_text};
ghost use Rattle.vk_report.specs.Reports.{IsReport, commitment_count, head_lines, seat_text, count_lines, report_text};

use crate::report::Report;
use std::alloc::Global;
use vk_board::Head;
use vk_residue::NoMemory;

/// The text of a report.
pub fn report_text(alloc: Global, report: &Report) -> Result<Vec<u8>, NoMemory>
    requires { IsReport report.now }
    ensures { IfOk result (λ text. text.items ≡ report_text report.now) }
{
    let lines = report_lines(alloc, report)?;
    let text = join_lines(alloc, lines.as_slice())?;
    Ok(text)
}

/// The lines one after another.
fn join_lines(alloc: Global, lines: &[String]) -> Result<Vec<u8>, NoMemory>
    ensures { IfOk result (λ text. text.items ≡ flat_map string_bytes lines.now) }
{
    let mut text = Vec::new(alloc);
    for line in lines {
        text.extend_from_slice(line.as_bytes())?;
    }
    Ok(text)
}

/// The lines of a report, each with its line feed.
#[tactic(auto, unfolding(crate::specs::Reports::report_text))]
pub fn report_lines(alloc: Global, report: &Report) -> Result<Vec<String>, NoMemory>
    requires { IsReport report.now }
    ensures { IfOk result (λ lines. flat_map string_bytes lines.items ≡ report_text report.now) }
{
    let mut lines = Vec::new(alloc);
    push_head(alloc, &mut lines, &report.head)?;
    push_seats(alloc, &mut lines, report.seats.as_slice())?;
    push_counts(
        alloc,
        &mut lines,
        report.wires,
        report.rows,
        commitment_count(report),
    )?;
    push_word(alloc, &mut lines, "end")?;
    Ok(lines)
}

/// A word and a number.
fn push_number(
    alloc: Global,
    lines: &mut Vec<String>,
    word: &str,
    number: u64,
) -> Result<(), NoMemory>
    ensures { OnOk result (flat_map string_bytes lines.new.items
        ≡ flat_map string_bytes lines.old.items ++ line (spaced (word.now ∷ decimal number ∷ []))) }
{
    let text = format!(in alloc; "{word} {number}\n")?;
    lines.push(text)?;
    Ok(())
}

/// A word alone.
fn push_word(alloc: Global, lines: &mut Vec<String>, word: &str) -> Result<(), NoMemory>
    ensures { OnOk result (flat_map string_bytes lines.new.items
        ≡ flat_map string_bytes lines.old.items ++ line word.now) }
{
    let text = format!(in alloc; "{word}\n")?;
    lines.push(text)?;
    Ok(())
}

/// The id of the auction.
fn push_auction(alloc: Global, lines: &mut Vec<String>, id: &[u8; 16]) -> Result<(), NoMemory>
    ensures { OnOk result (flat_map string_bytes lines.new.items
        ≡ flat_map string_bytes lines.old.items
        ++ line (spaced (codes "auction" ∷ hex_text id.now ∷ []))) }
{
    let id = hex::encode(alloc, id.as_slice())?;
    let text = format!(in alloc; "auction {id}\n")?;
    lines.push(text)?;
    Ok(())
}

/// The reserve, which version 2 has.
fn push_reserve(
    alloc: Global,
    lines: &mut Vec<String>,
    version: u32,
    reserve: u64,
) -> Result<(), NoMemory>
    ensures { OnOk result (flat_map string_bytes lines.new.items
        ≡ flat_map string_bytes lines.old.items ++ reserve_text version reserve) }
{
    if version == 2 {
        push_number(alloc, lines, "reserve", reserve)?;
    }
    Ok(())
}

/// The winner's seat, or that nothing is sold.
fn push_winner(alloc: Global, lines: &mut Vec<String>, winner: Option<u16>) -> Result<(), NoMemory>
    ensures { OnOk result (flat_map string_bytes lines.new.items
        ≡ flat_map string_bytes lines.old.items ++ line (winner_text winner)) }
{
    match winner {
        Some(seat) => push_number(alloc, lines, "winner", u64::from(seat)),
        None => push_word(alloc, lines, "unsold"),
    }
}

/// Appends the lines of what the head says.
#[tactic(auto, unfolding(crate::specs::Reports::head_lines))]
fn push_head(alloc: Global, lines: &mut Vec<String>, head: &Head) -> Result<(), NoMemory>
    ensures { OnOk result (flat_map string_bytes lines.new.items
        ≡ flat_map string_bytes lines.old.items ++ head_lines head.now) }
{
    push_auction(alloc, lines, &head.auction)?;
    push_number(alloc, lines, "width", u64::from(head.width))?;
    push_number(alloc, lines, "lanes", u64::from(head.lanes))?;
    push_number(alloc, lines, "seals", u64::from(head.seals))?;
    push_reserve(alloc, lines, head.version, head.reserve)?;
    push_winner(alloc, lines, head.winner)?;
    push_number(alloc, lines, "price", head.price)?;
    Ok(())
}

/// Appends the line of each seat.
fn push_seats(alloc: Global, lines: &mut Vec<String>, seats: &[u16]) -> Result<(), NoMemory>
    ensures { OnOk result (flat_map string_bytes lines.new.items
        ≡ flat_map string_bytes lines.old.items
        ++ flat_map (λ seat. line (seat_text seat)) seats.now) }
{
    for seat in seats {
        push_number(alloc, lines, "seat", u64::from(*seat))?;
    }
    Ok(())
}

/// Appends the lines of how many wires, rows and commitments there are.
#[tactic(auto, unfolding(crate::specs::Reports::count_lines))]
fn push_counts(
    alloc: Global,
    lines: &mut Vec<String>,
    wires: u32,
    rows: u32,
    commitments: u64,
) -> Result<(), NoMemory>
    ensures { OnOk result (flat_map string_bytes lines.new.items
        ≡ flat_map string_bytes lines.old.items ++ count_lines wires rows commitments) }
{
    push_number(alloc, lines, "wires", u64::from(wires))?;
    push_number(alloc, lines, "rows", u64::from(rows))?;
    push_number(alloc, lines, "commitments", commitments)?;
    Ok(())
}

/// How many commitments the lanes have: two to each wire.
#[tactic(auto, unfolding(crate::specs::Reports::commitment_count))]
fn commitment_count(report: &Report) -> u64
    requires { IsReport report.now }
    ensures { result ≡ commitment_count report.now }
{
    2 * u64::from(report.wires) * u64::from(report.head.lanes)
}
