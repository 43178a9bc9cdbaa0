ghost use Rattle.std.specs.Prelude.{◌≡◌, ◌<◌, ◌≤◌, ◌^◌, [], length, vec_capacity, Ok, Err, IfOk, IsErrOf};
ghost use Rattle.std.specs.List.{All};
ghost use Rattle.vk_dice.specs.Many.{after_draws};
ghost use Rattle.vk_seal.specs.Made.{IsExpected, Leaves, TapesAnswer, made_seal, sealed_tapes, tape_drawing, tapes_of, after_seal, lane_com, lane_coms};
ghost use Rattle.vk_seal.specs.Match.{match_of};
ghost use Rattle.vk_wire.specs.Values.{IsCom};
ghost use Rattle.vk_seal.specs.Values.{IsSeal, IsSecret, IsXTape};

use crate::secret::{Seal, Secret, XTape};
use std::alloc::{AllocError, Global};
use vk_commit::Place;
use vk_dice::{Draw, Words, draw_key, draw_onto, draw_residue};
use vk_plan::WireKind;
use vk_residue::Residue;
use vk_seq::Seq;
use vk_wire::{WireCom, make};

/// Why no seal was made.
#[derive(Clone, Copy, Debug, PartialEq, Eq)]
pub enum SealErr {
    /// The bid isn't below 2^width.
    BidTooLarge,
    /// The residue of that lane, the first such, can't be drawn.
    DrySeed { lane: u32 },
    /// Want of memory.
    NoMemory,
}

impl From<AllocError> for SealErr {
    ghost use Rattle.std.specs.Prelude.{◌≡◌};
    ghost use Rattle.vk_seal.specs.declared.making.SealErr.TheVariants.{NoMemory};

    ghost from_gives = { λ _ e. e ≡ NoMemory };

    fn from(_refused: AllocError) -> SealErr {
        SealErr::NoMemory
    }
}

/// Makes the secret of a bid and its seal. For each lane a residue and two keys are drawn from the
/// words, in this order. A bid that is too large takes no word and no memory, and a residue that
/// can't be drawn is the last that is taken. All memory is taken before the first word.
pub fn make_seal<W: Words>(
    alloc: Global,
    bid: u64,
    seat: u16,
    auction: &[u8; 16],
    width: u32,
    lanes: u32,
    words: &mut W,
) -> Result<(Secret, Seal), SealErr>
    requires some_seat { 1 ≤ seat }
    requires some_width { 1 ≤ width }
    requires most_width { width ≤ 40 }
    requires some_lane { 1 ≤ lanes }
    requires few_lanes { lanes ≤ 64 }
    ensures made { IsExpected result
        (made_seal bid seat auction.now width lanes (W.ahead words.old)) }
    ensures left { Leaves result (after_seal bid width lanes (W.ahead words.old))
        (W.ahead words.new) }
    ensures too_large { 2 ^ width ≤ bid → result ≡ Err SealErr.BidTooLarge }
    ensures memory { IsErrOf result SealErr.NoMemory → W.ahead words.new ≡ W.ahead words.old }
    ensures secret { IfOk result (λ made. IsSecret made.0) }
    ensures seal { IfOk result (λ made. IsSeal made.1) }
    ensures matched { IfOk result (λ made. match_of made.0 made.1 ≡ Ok tt) }
{
    if bid >= 1 << width {
        return Err(SealErr::BidTooLarge);
    }
    let tapes = Vec::with_capacity(alloc, lanes as usize)?;
    let coms = Vec::with_capacity(alloc, lanes as usize)?;
    let tapes = draw_tapes(tapes, lanes, words)?;
    let made = seal_tapes(bid, seat, auction, tapes, coms);
    Ok(made)
}

/// The secret of a bid with these tapes, and its seal, whose commitments go into that room.
fn seal_tapes(
    bid: u64,
    seat: u16,
    auction: &[u8; 16],
    tapes: Seq<XTape>,
    coms: Vec<WireCom>,
) -> (Secret, Seal)
    requires small_bid { bid < 2 ^ 40 }
    requires some_seat { 1 ≤ seat }
    requires some_lane { 1 ≤ length tapes }
    requires few_lanes { length tapes ≤ 64 }
    requires tapes { All IsXTape tapes }
    requires no_coms { coms.items ≡ [] }
    requires room { length tapes ≤ vec_capacity coms }
    ensures made { result ≡ sealed_tapes auction.now seat bid tapes }
    ensures secret { IsSecret result.0 }
    ensures seal { IsSeal result.1 }
    ensures matched { match_of result.0 result.1 ≡ Ok tt }
{
    let lanes = commit_lanes(auction, seat, bid, tapes.as_slice(), coms);
    (
        Secret {
            auction: *auction,
            seat,
            bid,
            lanes: tapes,
        },
        Seal {
            auction: *auction,
            seat,
            lanes,
        },
    )
}

/// Draws the tapes of so many lanes into that room.
fn draw_tapes<W: Words>(tapes: Vec<XTape>, lanes: u32, words: &mut W) -> Result<Seq<XTape>, SealErr>
    requires few_lanes { lanes ≤ 64 }
    requires no_tapes { tapes.items ≡ [] }
    requires room { lanes ≤ vec_capacity tapes }
    ensures drawn { TapesAnswer result (tapes_of lanes (W.ahead words.old)) }
    ensures left { W.ahead words.new ≡ after_draws tape_drawing lanes (W.ahead words.old) }
    ensures tapes { IfOk result (λ tapes. All IsXTape tapes) }
    ensures count { IfOk result (λ tapes. length tapes ≡ lanes) }
{
    match draw_onto(tapes, lanes, &TapeDraw, words) {
        Ok(tapes) => Ok(Seq::from_vec(tapes)),
        Err(dry) => {
            let lane = dry.number + 1;
            Err(SealErr::DrySeed { lane })
        }
    }
}

/// The draw of the tape of one lane.
struct TapeDraw;

impl Draw for TapeDraw {
    ghost use Rattle.vk_seal.specs.Made.{tape_drawing};
    ghost use Rattle.vk_seal.specs.Values.{IsXTape};

    type Item = XTape;

    ghost drawing = { λ _. tape_drawing };

    ghost is_item = { λ _. IsXTape };

    fn draw<W: Words>(&self, words: &mut W) -> Option<XTape> {
        let mask = draw_residue(words).ok()?;
        let first_key = draw_key(words);
        let second_key = draw_key(words);
        Some(XTape {
            mask,
            first_key,
            second_key,
        })
    }
}

/// The commitments of each lane, put into that room.
fn commit_lanes(
    auction: &[u8; 16],
    seat: u16,
    bid: u64,
    tapes: &[XTape],
    mut coms: Vec<WireCom>,
) -> Seq<WireCom>
    requires small_bid { bid < 2 ^ 40 }
    requires few_lanes { length tapes.now ≤ 64 }
    requires no_coms { coms.items ≡ [] }
    requires room { length tapes.now ≤ vec_capacity coms }
    ensures coms { result ≡ lane_coms auction.now seat bid 1 tapes.now }
    ensures digests { All IsCom result }
{
    for (index, tape) in tapes.iter().enumerate() {
        let com = commit_lane(auction, seat, bid, index as u16 + 1, tape);
        coms.push(com).unwrap();
    }
    Seq::from_vec(coms)
}

/// The commitments of one lane.
pub(crate) fn commit_lane(
    auction: &[u8; 16],
    seat: u16,
    bid: u64,
    lane: u16,
    tape: &XTape,
) -> WireCom
    requires { bid < 2 ^ 40 }
    ensures made { result ≡ lane_com auction.now seat bid lane tape.now }
    ensures digests { IsCom result }
{
    let place = Place {
        auction: *auction,
        seat,
        lane,
        slot: 0,
    };
    make(WireKind::Split, &place, value_of(bid), &tape.wire())
}

/// A bid as a residue.
fn value_of(bid: u64) -> Residue
    requires { bid < 2 ^ 40 }
    ensures { result ≡ bid }
{
    Residue::new(bid).unwrap()
}
