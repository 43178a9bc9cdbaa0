// What stands in a claim file before its first lane: the head, and the seals.
ghost use Rattle.std.specs.Prelude.{◌≡◌, ◌++◌, ◌∷◌, [], codes, decimal, IfOk, OnOk};
ghost use Rattle.std.specs.List.{flat_map};
ghost use Rattle.vk_judge.specs.Common.{Reads, ReadsRight, line, line_by, spaced};
ghost use Rattle.vk_claim.specs.Values.{AreNumbers, IsClaimFront, IsClaimHead};
ghost use Rattle.vk_claim.specs.Texts.{claim_head_text, numbers_text};
ghost use Rattle.vk_claim.specs.Reading.{claim_front_at, claim_head_at, kind_line, numbers_at};
ghost use Rattle.vk_words.specs.Claims.{kind_word};

use std::alloc::Global;
use vk_board::{SealLines, read_seal_lines};
use vk_io::Shelf;
use vk_lines::{
    LineKind, Lines, ReadErr, behind_word, one_field, push_hex_line, push_line, push_number_line,
    read_many, read_number,
};
use vk_residue::NoMemory;
use vk_seq::Seq;
use vk_words::{Kind, kind_named};

/// What a claim file says before its first seal: the auction, and the public part, which is the
/// kind, the number of inputs and the numbers.
#[derive(Debug, Drop)]
pub struct ClaimHead {
    pub auction: [u8; 16],
    pub kind: Kind,
    /// What the circuit is of, 1 to 128 numbers.
    pub numbers: Seq<u64>,
    /// How many seals there are, 1 to 512.
    pub inputs: u32,
    /// 1 to 64.
    pub lanes: u32,
}

impl ClaimHead {
    /// Reads the head of a claim file. Malformed carries the number of the first line that isn't
    /// what its place demands.
    #[tactic(auto, unfolding(crate::specs::Reading::claim_head_at, crate::specs::Reading::numbers_at))]
    pub fn read<S: Shelf>(alloc: Global, shelf: &mut S, lines: &mut Lines) -> Result<Self, ReadErr>
        ensures reads { ReadsRight claim_head_at IsClaimHead S.held S.Shelf.faults
            lines.old lines.new shelf.old shelf.new result }
    {
        lines.read_fixed(shelf, b"vickrey-claim 1")?;
        let auction = lines.read_id(shelf, b"auction")?;
        let kind = read_kind(shelf, lines)?;
        let lanes = lines.read_number(shelf, b"lanes", 1, 64)?;
        let inputs = lines.read_number(shelf, b"inputs", 1, 512)?;
        let count = lines.read_number(shelf, b"numbers", 1, 128)?;
        let numbers = read_many(alloc, shelf, lines, &NumberLine, count as u32)?;
        Ok(ClaimHead {
            auction,
            kind,
            lanes: lanes as u32,
            inputs: inputs as u32,
            numbers,
        })
    }
}

/// What stands in a claim file before its first lane.
#[derive(Debug, Drop)]
pub struct ClaimFront {
    pub head: ClaimHead,
    /// A seal for each input.
    pub seals: Seq<SealLines>,
}

/// Reads the lines of a claim file before its first lane. Malformed carries the number of the first
/// line that isn't what its place demands; a seat that an earlier seal has is a fault at its line.
#[tactic(auto, unfolding(crate::specs::Reading::claim_front_at))]
pub fn read_claim_front<S: Shelf>(
    alloc: Global,
    shelf: &mut S,
    lines: &mut Lines,
) -> Result<ClaimFront, ReadErr>
    ensures reads { ReadsRight claim_front_at IsClaimFront S.held S.Shelf.faults
        lines.old lines.new shelf.old shelf.new result }
{
    let head = ClaimHead::read(alloc, shelf, lines)?;
    let seals = read_seal_lines(alloc, shelf, lines, head.inputs, head.lanes)?;
    Ok(ClaimFront { head, seals })
}

/// Reads the line of a kind.
#[tactic(auto, unfolding(vk_lines::specs::Lines::line_by))]
fn read_kind<S: Shelf>(shelf: &mut S, lines: &mut Lines) -> Result<Kind, ReadErr>
    ensures reads { Reads (line_by kind_line) S.held S.Shelf.faults
        lines.old lines.new shelf.old shelf.new result }
{
    lines.read_text(shelf)?;
    let kind = lines.require(kind_of(lines.text()));
    kind
}

/// The kind that a line tells.
fn kind_of(text: &[u8]) -> Option<Kind>
    ensures { result ≡ kind_line text.now }
{
    let word = one_field(behind_word(text, b"kind")?)?;
    let kind = kind_named(word)?;
    Some(kind)
}

/// The line of a number.
#[derive(Drop)]
struct NumberLine;

impl LineKind for NumberLine {
    ghost use Rattle.std.specs.Prelude.{◌<◌, ◌^◌};
    ghost use Rattle.vk_claim.specs.Reading.{n_line};

    type Item = u64;

    ghost item_of = { λ _ _ text. n_line text };

    ghost is_item = { λ _ _ number. number < 2 ^ 64 };

    fn read(&self, _number: u32, text: &[u8]) -> Option<u64> {
        let number = read_number(text, b"n", 0, u64::MAX)?;
        Some(number)
    }
}

/// The head's text: the lines before the first seal.
#[tactic(auto, unfolding(crate::specs::Texts::claim_head_text))]
pub fn claim_head_text(alloc: Global, head: &ClaimHead) -> Result<Vec<u8>, NoMemory>
    ensures { IfOk result (λ text. text.items ≡ claim_head_text head.now) }
{
    let mut text = Vec::new(alloc);
    push_line(&mut text, b"vickrey-claim 1")?;
    push_hex_line(&mut text, b"auction", &head.auction)?;
    push_kind(&mut text, head.kind)?;
    push_number_line(&mut text, b"lanes", u64::from(head.lanes))?;
    push_number_line(&mut text, b"inputs", u64::from(head.inputs))?;
    push_numbers(&mut text, head.numbers.as_slice())?;
    Ok(text)
}

/// Appends the line of the kind.
fn push_kind(out: &mut Vec<u8>, kind: Kind) -> Result<(), NoMemory>
    ensures { OnOk result (out.new.items
        ≡ out.old.items ++ line (spaced (codes "kind" ∷ kind_word kind ∷ []))) }
{
    match kind {
        Kind::Uniform => {
            push_line(out, b"kind uniform")?;
            Ok(())
        }
        Kind::Matching => {
            push_line(out, b"kind matching")?;
            Ok(())
        }
    }
}

/// Appends how many numbers there are, and then each.
#[tactic(auto, unfolding(crate::specs::Texts::numbers_text))]
fn push_numbers(out: &mut Vec<u8>, numbers: &[u64]) -> Result<(), NoMemory>
    ensures { OnOk result (out.new.items ≡ out.old.items ++ numbers_text numbers.now) }
{
    push_number_line(out, b"numbers", numbers.len() as u64)?;
    push_each(out, numbers)?;
    Ok(())
}

/// Appends a line for each number.
fn push_each(out: &mut Vec<u8>, numbers: &[u64]) -> Result<(), NoMemory>
    ensures { OnOk result (out.new.items
        ≡ out.old.items ++ flat_map (λ number. line (spaced (codes "n" ∷ decimal number ∷ [])))
        numbers.now) }
{
    for number in numbers {
        push_number_line(out, b"n", *number)?;
    }
    Ok(())
}
