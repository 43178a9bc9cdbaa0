ghost use Rattle.std.specs.Prelude.{length, ◌≡◌, ◌<◌, ◌≤◌, slice_index_or, IfSome};
ghost use Rattle.vk_residue.specs.Limits.{IsLaneCount};
ghost use Rattle.vk_lines.specs.Common.{ReadsRight, ReadsWhole, line_by};
ghost use Rattle.vk_plan.specs.declared.wire.WireKind.TheVariants.{Split};
ghost use Rattle.vk_reply.specs.Values.{AreShown, IsChallenge, IsShown};
ghost use Rattle.vk_reply.specs.Texts.{challenge_text};
ghost use Rattle.vk_reply.specs.Tables.{challenge_table};
ghost use Rattle.vk_reply.specs.Tokens.{bits_line};
ghost use Rattle.vk_reply.specs.Reading.{half_line, whole_line, spent_line, shown_line, challenge_at, reply_head_at, reply_lane_at, wires_at};

use crate::challenge::Challenge;
use crate::tokens::{bits_line, entry_of, last_opening};
use std::alloc::Global;
use vk_commit::Opening;
use vk_io::Shelf;
use vk_lines::{
    LineKind, Lines, ReadErr, behind_word, next_field, next_hex32, read_many, read_residue,
};
use vk_plan::{Plan, WireKind};
use vk_seq::Seq;
use vk_wire::Shown;

/// Reads a challenge's file whole. Malformed carries the number of the first line that isn't what
/// its place demands.
#[tactic(auto, using(crate::proofs::Challenges::whole_rules))]
pub fn read_challenge<S: Shelf>(
    alloc: Global,
    shelf: &mut S,
    lines: &mut Lines,
) -> Result<Challenge, ReadErr>
    ensures reads { ReadsWhole challenge_at IsChallenge challenge_text challenge_table
        S.held S.Shelf.faults lines.old lines.new shelf.old shelf.new result }
{
    let challenge = Challenge::read(alloc, shelf, lines);
    challenge
}

impl Challenge {
    /// Reads the lines of a challenge in turn.
    #[tactic(auto, unfolding(crate::specs::Reading::challenge_at))]
    fn read<S: Shelf>(alloc: Global, shelf: &mut S, lines: &mut Lines) -> Result<Self, ReadErr>
        ensures reads { ReadsRight challenge_at IsChallenge S.held S.Shelf.faults
            lines.old lines.new shelf.old shelf.new result }
    {
        lines.read_fixed(shelf, b"vickrey-challenge 1")?;
        let bits = read_bits(alloc, shelf, lines)?;
        lines.read_end(shelf)?;
        Ok(challenge_from(bits))
    }
}

/// A challenge of what was read.
fn challenge_from(bits: Seq<bool>) -> Challenge
    requires count { IsLaneCount (length bits) }
    ensures value { result ≡ record { bits = bits } }
    ensures right { IsChallenge result }
{
    Challenge { bits }
}

/// Reads the line of a challenge's bits.
#[tactic(auto, unfolding(vk_lines::specs::Lines::line_by))]
fn read_bits<S: Shelf>(
    alloc: Global,
    shelf: &mut S,
    lines: &mut Lines,
) -> Result<Seq<bool>, ReadErr>
    ensures reads { ReadsRight (line_by bits_line) (λ bits. IsLaneCount (length bits))
        S.held S.Shelf.faults lines.old lines.new shelf.old shelf.new result }
{
    lines.read_text(shelf)?;
    let value = bits_line(alloc, lines.text())?;
    let bits = lines.require(value);
    bits
}

/// Reads the lines of a reply before its first lane: the number of lanes, 1 to 64. Malformed
/// carries the number of the first line that isn't what its place demands.
#[tactic(auto, unfolding(crate::specs::Reading::reply_head_at))]
pub fn read_reply_head<S: Shelf>(shelf: &mut S, lines: &mut Lines) -> Result<u32, ReadErr>
    ensures reads { ReadsRight reply_head_at (λ lanes. (1 ≤ lanes) × (lanes ≤ 64))
        S.held S.Shelf.faults lines.old lines.new shelf.old shelf.new result }
{
    lines.read_fixed(shelf, b"vickrey-reply 1")?;
    let count = lines.read_number(shelf, b"lanes", 1, 64)?;
    Ok(count as u32)
}

/// Reads the lines of one lane of a reply: its number, counted from 1, and what is shown of each
/// wire of the plan for the bit. Malformed carries the number of the first line that isn't what its
/// place demands, as one of another form than the wire's kind and the bit ask for.
#[tactic(auto, unfolding(crate::specs::Reading::reply_lane_at))]
pub fn read_reply_lane<S: Shelf>(
    alloc: Global,
    shelf: &mut S,
    lines: &mut Lines,
    lane: u32,
    plan: &Plan,
    bit: bool,
) -> Result<Seq<Shown>, ReadErr>
    ensures reads { ReadsRight (reply_lane_at lane plan.now.kinds bit) (AreShown plan.now.kinds bit)
        S.held S.Shelf.faults lines.old lines.new shelf.old shelf.new result }
{
    lines.read_number(shelf, b"lane", u64::from(lane), u64::from(lane))?;
    let shown = read_wires(alloc, shelf, lines, plan, bit)?;
    Ok(shown)
}

/// Reads one line for each wire of the plan.
fn read_wires<S: Shelf>(
    alloc: Global,
    shelf: &mut S,
    lines: &mut Lines,
    plan: &Plan,
    bit: bool,
) -> Result<Seq<Shown>, ReadErr>
    ensures reads { ReadsRight (wires_at plan.now.kinds bit) (AreShown plan.now.kinds bit)
        S.held S.Shelf.faults lines.old lines.new shelf.old shelf.new result }
{
    let shown = read_many(alloc, shelf, lines, &WireLine { plan, bit }, plan.wires());
    shown
}

/// The line of a wire of a plan for this bit.
#[derive(Drop)]
struct WireLine<'a> {
    plan: &'a Plan,
    bit: bool,
}

impl<'a> LineKind for WireLine<'a> {
    ghost use Rattle.std.specs.Prelude.{length, slice_index_or};
    ghost use Rattle.vk_plan.specs.declared.wire.WireKind.TheVariants.{Split};
    ghost use Rattle.vk_reply.specs.Values.{IsShown};
    ghost use Rattle.vk_reply.specs.Reading.{shown_line};

    type Item = Shown;

    ghost most = { λ kind. length kind.plan.now.kinds };

    ghost item_of = { λ kind wire text. shown_line (slice_index_or kind.plan.now.kinds wire Split)
        kind.bit text };

    ghost is_item = { λ kind wire shown. IsShown (slice_index_or kind.plan.now.kinds wire Split)
        kind.bit shown };

    fn read(&self, number: u32, text: &[u8]) -> Option<Shown> {
        let shown = shown_of(kind_of(self.plan, number), self.bit, text);
        shown
    }
}

/// The kind of a wire, counted from 0.
fn kind_of(plan: &Plan, wire: u32) -> WireKind
    requires { wire < length plan.now.kinds }
    ensures { result ≡ slice_index_or plan.now.kinds wire Split }
{
    plan.kind(wire)
}

/// What a line shows of a wire of this kind for this bit.
fn shown_of(kind: WireKind, bit: bool, text: &[u8]) -> Option<Shown>
    ensures value { result ≡ shown_line kind bit text.now }
    ensures right { IfSome result (IsShown kind bit) }
{
    match (kind, bit) {
        (WireKind::Split, _) => half_of(text),
        (WireKind::Pair(_), false) => whole_of(text),
        (WireKind::Pair(_), true) => spent_of(text),
    }
}

/// The half of a split wire that a line shows.
fn half_of(text: &[u8]) -> Option<Shown>
    ensures { result ≡ half_line text.now }
{
    let opening = last_opening(behind_word(text, b"h")?)?;
    Some(Shown::Half(opening))
}

/// Both entries of a pair that a line shows.
fn whole_of(text: &[u8]) -> Option<Shown>
    ensures { result ≡ whole_line text.now }
{
    let (key, rest) = next_hex32(behind_word(text, b"a")?)?;
    let (value, rest) = next_field(rest)?;
    let value = read_residue(value)?;
    let first = Opening { key, value };
    let second = last_opening(rest)?;
    Some(Shown::Whole(first, second))
}

/// The one entry of a pair that a line shows.
fn spent_of(text: &[u8]) -> Option<Shown>
    ensures { result ≡ spent_line text.now }
{
    let (entry, rest) = next_field(behind_word(text, b"s")?)?;
    let second = entry_of(entry)?;
    let opening = last_opening(rest)?;
    Some(Shown::Spent { second, opening })
}
