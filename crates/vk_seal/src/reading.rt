ghost use Rattle.std.specs.Prelude.{length, ◌≡◌, ◌<◌, ◌≤◌, ◌^◌, IfOk};
ghost use Rattle.std.specs.List.{All};
ghost use Rattle.vk_commit.specs.Values.{AreBytes};
ghost use Rattle.vk_wire.specs.Values.{IsCom};
ghost use Rattle.vk_seal.specs.Values.{IsSeal, IsSecret, IsXTape};
ghost use Rattle.vk_lines.specs.Common.{EachNumbered, Reads, ReadsRight, ReadsWhole};
ghost use Rattle.vk_seal.specs.Texts.{seal_text, secret_text};
ghost use Rattle.vk_seal.specs.Tables.{seal_table, secret_table};
ghost use Rattle.vk_seal.specs.Reading.{com_at, seat_at, lanes_at, seal_at, secret_at};

use crate::secret::{Seal, Secret, XTape};
use std::alloc::Global;
use std::marker::PhantomData;
use vk_io::Shelf;
use vk_lines::{
    DigestsLine, LineKind, Lines, ReadErr, behind_word, read_hex32, read_many, read_residue,
    three_fields,
};
use vk_seq::Seq;
use vk_wire::WireCom;

/// The greatest bid that a secret has: 2^40 - 1.
const MOST_BID: u64 = (1 << 40) - 1;

/// Reads a seal's file whole. Malformed carries the number of the first line that isn't what its
/// place demands.
#[tactic(auto, using(crate::proofs::Forms::whole_rules))]
pub fn read_seal<S: Shelf>(alloc: Global, shelf: &mut S, lines: &mut Lines) -> Result<Seal, ReadErr>
    ensures reads { ReadsWhole seal_at IsSeal seal_text seal_table S.held S.Shelf.faults
        lines.old lines.new shelf.old shelf.new result }
{
    let seal = seal_read(alloc, shelf, lines);
    seal
}

/// Reads the lines of a seal in turn.
#[tactic(auto, unfolding(crate::specs::Reading::seal_at))]
fn seal_read<S: Shelf>(alloc: Global, shelf: &mut S, lines: &mut Lines) -> Result<Seal, ReadErr>
    ensures reads { ReadsRight seal_at IsSeal S.held S.Shelf.faults
        lines.old lines.new shelf.old shelf.new result }
{
    let (auction, seat) = read_seat(shelf, lines, b"vickrey-seal 1")?;
    let lanes = read_coms(alloc, shelf, lines)?;
    Ok(seal_from(&auction, seat, lanes))
}

/// Reads how many lanes a seal has, the line of each, and the end.
fn read_coms<S: Shelf>(
    alloc: Global,
    shelf: &mut S,
    lines: &mut Lines,
) -> Result<Seq<WireCom>, ReadErr>
    ensures reads { Reads (lanes_at com_at) S.held S.Shelf.faults
        lines.old lines.new shelf.old shelf.new result }
    ensures some { IfOk result (λ lanes. 1 ≤ length lanes) }
    ensures few { IfOk result (λ lanes. length lanes ≤ 64) }
    ensures digests { IfOk result (All IsCom) }
{
    let word = b"x";
    let made = PhantomData;
    let lanes = read_lanes(alloc, shelf, lines, &DigestsLine { word, made })?;
    Ok(lanes)
}

/// A seal of what was read.
#[tactic(auto, using(std::proofs::lemmas::List::Elements::recursion_from_All))]
fn seal_from(auction: &[u8; 16], seat: u16, lanes: Seq<WireCom>) -> Seal
    requires id { AreBytes 16 auction.now }
    requires some_seat { 1 ≤ seat }
    requires some_lane { 1 ≤ length lanes }
    requires few_lanes { length lanes ≤ 64 }
    requires digests { All IsCom lanes }
    ensures value { result ≡ record { auction = auction.now; seat = seat; lanes = lanes } }
    ensures right { IsSeal result }
{
    Seal {
        auction: *auction,
        seat,
        lanes,
    }
}

/// Reads the first line of a form, the id of an auction and a seat.
#[tactic(auto, unfolding(crate::specs::Reading::seat_at))]
fn read_seat<S: Shelf>(
    shelf: &mut S,
    lines: &mut Lines,
    heading: &[u8],
) -> Result<([u8; 16], u16), ReadErr>
    ensures reads { Reads (seat_at heading.now) S.held S.Shelf.faults
        lines.old lines.new shelf.old shelf.new result }
    ensures id { IfOk result (λ place. AreBytes 16 place.0) }
    ensures some_seat { IfOk result (λ place. 1 ≤ place.1) }
{
    lines.read_fixed(shelf, heading)?;
    let auction = lines.read_id(shelf, b"auction")?;
    let seat = lines.read_number(shelf, b"seat", 1, 65535)?;
    Ok((auction, seat as u16))
}

/// Reads how many lanes there are, the line of each, and the end.
#[tactic(auto, unfolding(crate::specs::Reading::lanes_at))]
fn read_lanes<S: Shelf, K: LineKind>(
    alloc: Global,
    shelf: &mut S,
    lines: &mut Lines,
    kind: &K,
) -> Result<Seq<K::Item>, ReadErr>
    requires { 64 ≤ K.most kind.now }
    ensures reads { Reads (lanes_at (K.item_of kind.now)) S.held S.Shelf.faults
        lines.old lines.new shelf.old shelf.new result }
    ensures some { IfOk result (λ lanes. 1 ≤ length lanes) }
    ensures few { IfOk result (λ lanes. length lanes ≤ 64) }
    ensures each { IfOk result (EachNumbered (K.is_item kind.now)) }
{
    let count = lines.read_number(shelf, b"lanes", 1, 64)?;
    let lanes = read_many(alloc, shelf, lines, kind, count as u32)?;
    lines.read_end(shelf)?;
    Ok(lanes)
}

/// Reads a secret's file whole. Malformed carries the number of the first line that isn't what its
/// place demands.
#[tactic(auto, using(crate::proofs::Forms::whole_rules))]
pub fn read_secret<S: Shelf>(
    alloc: Global,
    shelf: &mut S,
    lines: &mut Lines,
) -> Result<Secret, ReadErr>
    ensures reads { ReadsWhole secret_at IsSecret secret_text secret_table S.held S.Shelf.faults
        lines.old lines.new shelf.old shelf.new result }
{
    let secret = secret_read(alloc, shelf, lines);
    secret
}

/// Reads the lines of a secret in turn.
#[tactic(auto, unfolding(crate::specs::Reading::secret_at))]
fn secret_read<S: Shelf>(alloc: Global, shelf: &mut S, lines: &mut Lines) -> Result<Secret, ReadErr>
    ensures reads { ReadsRight secret_at IsSecret S.held S.Shelf.faults
        lines.old lines.new shelf.old shelf.new result }
{
    let (auction, seat) = read_seat(shelf, lines, b"vickrey-secret 1")?;
    let bid = lines.read_number(shelf, b"bid", 0, MOST_BID)?;
    let lanes = read_lanes(alloc, shelf, lines, &TapeLine)?;
    Ok(secret_from(&auction, seat, bid, lanes))
}

/// A secret of what was read.
#[tactic(auto, using(std::proofs::lemmas::List::Elements::recursion_from_All))]
fn secret_from(auction: &[u8; 16], seat: u16, bid: u64, lanes: Seq<XTape>) -> Secret
    requires id { AreBytes 16 auction.now }
    requires some_seat { 1 ≤ seat }
    requires small_bid { bid < 2 ^ 40 }
    requires some_lane { 1 ≤ length lanes }
    requires few_lanes { length lanes ≤ 64 }
    requires tapes { All IsXTape lanes }
    ensures value { result ≡ record {
      auction = auction.now;
      seat = seat;
      bid = bid;
      lanes = lanes;
    } }
    ensures right { IsSecret result }
{
    Secret {
        auction: *auction,
        seat,
        bid,
        lanes,
    }
}

/// The line of one lane of a secret.
#[derive(Drop)]
struct TapeLine;

impl LineKind for TapeLine {
    ghost use Rattle.vk_seal.specs.Reading.{IsXTape, tape_at};

    type Item = XTape;

    ghost item_of = { λ _. tape_at };

    ghost is_item = { λ _ _ tape. IsXTape tape };

    #[tactic(auto, unfolding(crate::specs::Reading::tape_at))]
    fn read(&self, _lane: u32, text: &[u8]) -> Option<XTape> {
        let (mask, first_key, second_key) = three_fields(behind_word(text, b"x")?)?;
        let mask = read_residue(mask)?;
        let first_key = read_hex32(first_key)?;
        let second_key = read_hex32(second_key)?;
        Some(XTape {
            mask,
            first_key,
            second_key,
        })
    }
}
