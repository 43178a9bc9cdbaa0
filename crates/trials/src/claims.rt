// Honest claims that no pair blocks a matching, as files, judged and extracted from by the program.
ghost use Rattle.std.specs.Prelude.{◌≡◌, ◌<◌, ◌≤◌, ◌*◌, ◌^◌, ◌∷◌, All, IfOk, length};
ghost use Rattle.vk_plan.specs.Plans.{Holds};
ghost use Rattle.vk_matching.specs.MatchingPlans.{IsMatchingClaim};

use crate::asked::Asked;
use crate::bench::{Bench, Sizes, push_same, push_values};
use crate::checks::push_checked;
use crate::honest::{ID, Sealing, Terms, plan_and_values, residues, write_files};
use std::alloc::Global;
use vk_cases::{Text, Tried, Unreplayed, number_at, numbers_in, word_at};
use vk_claim::{ClaimHead, Kind, claim_head_text};
use vk_io::PieceShelf;
use vk_judge::TwoReplies;
use vk_matching::{MatchingPlan, propose};
use vk_plan::Plan;
use vk_residue::{NoMemory, Residue};
use vk_seq::Seq;

/// As many women as men, and how their ranks are sealed.
#[derive(Clone, Copy)]
struct Couples {
    /// How many men there are, 1 to 16.
    size: u32,
    /// That of the ranks, 1 to 16.
    width: u32,
    lanes: u16,
}

/// How large the files of a case's claim are, and what the program says of them.
pub fn push_claim(bench: &mut Bench, text: &mut Text, case: &[u8]) -> Tried<()> {
    let couples = couples_of(case)?;
    let ranks = numbers_in(bench.alloc, word_at(case, 3)?)?;
    let pushed = push_tried(bench, text, couples, ranks.as_slice());
    pushed
}

fn couples_of(case: &[u8]) -> Tried<Couples> {
    let size = number_at(case, 0, 16)? as u32;
    let width = number_at(case, 1, 16)? as u32;
    let lanes = number_at(case, 2, 64)? as u16;
    Ok(Couples { size, width, lanes })
}

/// Writes the claim's files, and tells how large they are and what the program says of them.
fn push_tried(bench: &mut Bench, text: &mut Text, couples: Couples, ranks: &[u64]) -> Tried<()> {
    let sizes = write_claim(bench.alloc, &mut bench.shelf, couples, ranks)?;
    push_counts(text, couples);
    bench.push_lengths(text, sizes);
    bench.run_asked(text, b"claim-verify board", Asked::Zeros)?;
    text.put(bench.said());
    bench.run_asked(text, b"claim-verify board", Asked::Ones)?;
    text.put(bench.said());
    push_checked(bench, text, &names())?;
    bench.run_asked(text, b"claim-extract board zeros reply-zeros", Asked::Ones)?;
    push_extracted(bench, text, couples, ranks)
}

/// The names of the claim's file, and of two replies that differ in each lane.
fn names() -> TwoReplies<'static> {
    TwoReplies {
        file: "board",
        challenge1: Asked::Zeros.name(),
        reply1: Asked::Zeros.reply(),
        challenge2: Asked::Ones.name(),
        reply2: Asked::Ones.reply(),
    }
}

/// The counts of the claim.
fn push_counts(text: &mut Text, couples: Couples) {
    text.put(b"claim");
    text.put_number(b" couples ", u64::from(couples.size));
    text.put_number(b" width ", u64::from(couples.width));
    text.put_number(b" lanes ", u64::from(couples.lanes));
}

/// What an extraction says without its openings; or, where this is as it has to be, that the ranks
/// are as given.
fn push_extracted(
    bench: &mut Bench,
    text: &mut Text,
    couples: Couples,
    ranks: &[u64],
) -> Tried<()> {
    bench.wanted.clear();
    push_expected(&mut bench.wanted, couples, ranks);
    bench.strip();
    match bench.other_than_wanted()? {
        None => text.put(b"ranks as given\nall seats same\n"),
        Some(said) => text.put(said),
    }
    Ok(())
}

/// What an extraction without its openings has to be: the ranks of each lane, and that those of
/// each seat are the same.
fn push_expected(text: &mut Text, couples: Couples, ranks: &[u64]) {
    for lane in 1..=couples.lanes {
        push_values(text, lane, b" value ", ranks);
    }
    text.put(b"kind matching\n");
    push_same(text, ranks);
    text.put(b"end\n");
}

/// Writes the claim that what is proposed of these ranks is stable, where they are of the width.
fn write_claim(
    alloc: Global,
    shelf: &mut PieceShelf,
    couples: Couples,
    ranks: &[u64],
) -> Tried<Sizes> {
    let Couples { size, width, .. } = couples;
    if size == 0 || 16 < size || ranks.len() != (2 * size * size) as usize || 16 < width {
        return Err(Unreplayed::NoCase);
    }
    let inputs = residues(alloc, ranks, width)?.ok_or(Unreplayed::NoCase)?;
    let written = write_proposed(alloc, shelf, couples, ranks, inputs.as_slice());
    written
}

/// The same with the ranks as residues.
fn write_proposed(
    alloc: Global,
    shelf: &mut PieceShelf,
    couples: Couples,
    ranks: &[u64],
    inputs: &[Residue],
) -> Tried<Sizes>
    requires some { 1 ≤ couples.size }
    requires few { couples.size ≤ 16 }
    requires all_ranks { length ranks.now ≡ 2 * couples.size * couples.size }
    requires within { All (λ rank. rank < 2 ^ couples.width) ranks.now }
    requires same { inputs.now ≡ ranks.now }
{
    let numbers = numbers_of(alloc, couples.size, couples.width, ranks)?;
    let (plan, values) = plan_of_claim(alloc, inputs, numbers.as_slice())?;
    let head = ClaimHead {
        auction: ID,
        kind: Kind::Matching,
        lanes: u32::from(couples.lanes),
        inputs: plan.inputs(),
        numbers: Seq::from_vec(numbers),
    };
    let written = write_headed(
        alloc,
        shelf,
        couples,
        ranks,
        &head,
        &plan,
        values.as_slice(),
    );
    written
}

/// Writes it behind that head. The values hold for the plan.
fn write_headed(
    alloc: Global,
    shelf: &mut PieceShelf,
    couples: Couples,
    ranks: &[u64],
    head: &ClaimHead,
    plan: &Plan,
    values: &[Residue],
) -> Tried<Sizes>
    requires { Holds plan.now values.now }
{
    let text = claim_head_text(alloc, head)?;
    let sealing = Sealing {
        front: text.as_slice(),
        bids: ranks,
        terms: Terms {
            version: 1,
            width: couples.width,
            lanes: couples.lanes,
            reserve: 0,
        },
    };
    let written = write_files(alloc, shelf, &sealing, plan, values);
    written
}

/// The width, and behind it what is proposed of the ranks, which are of that width.
fn numbers_of(alloc: Global, size: u32, width: u32, ranks: &[u64]) -> Result<Vec<u64>, NoMemory>
    requires some { 1 ≤ size }
    requires few { size ≤ 16 }
    requires all_ranks { length ranks.now ≡ 2 * size * size }
    requires within { All (λ rank. rank < 2 ^ width) ranks.now }
    ensures { IfOk result (λ numbers. IsMatchingClaim (length ranks.now) numbers.items ranks.now) }
{
    let matching = propose(alloc, size, ranks)?;
    let numbers = listed(alloc, width, matching.as_slice())?;
    Ok(numbers)
}

/// The width, and behind it these women.
fn listed(alloc: Global, width: u32, women: &[u32]) -> Result<Vec<u64>, NoMemory>
    ensures { IfOk result (λ numbers. numbers.items ≡ width ∷ women.now) }
{
    let mut numbers = Vec::new(alloc);
    numbers.push(u64::from(width))?;
    for woman in women {
        numbers.push(u64::from(*woman))?;
    }
    Ok(numbers)
}

/// The plan of these numbers, and the values that hold for it.
fn plan_of_claim(alloc: Global, inputs: &[Residue], numbers: &[u64]) -> Tried<(Plan, Vec<Residue>)>
    requires few { length inputs.now ≤ 512 }
    requires claim { IsMatchingClaim (length inputs.now) numbers.now inputs.now }
    ensures { IfOk result (λ made. Holds made.0 made.1.items) }
{
    match MatchingPlan::from_numbers(alloc, inputs.len() as u32, numbers)? {
        Some(circuit) => {
            let made = plan_and_values(alloc, &circuit, inputs)?;
            Ok(made)
        }
        None => Err(Unreplayed::NoCase),
    }
}
