ghost use Rattle.std.specs.Prelude.{length, true, ◌≡◌, ◌≤◌, ◌-◌, ◌⊎◌, IfSome, IfOk, IsErrOf};
ghost use Rattle.std.specs.List.{All};
ghost use Rattle.vk_residue.specs.Residue.{IsResidue};
ghost use Rattle.vk_lines.specs.Common.{MayCause, Reads, ReadsFreely, ReadsRight, Rose, line_by, many_at};
ghost use Rattle.vk_board.specs.Values.{AreBytes, IsCom, IsVersion, IsReserve, IsWinner, IsHead, IsSealAfter, AreSealsOf, AreSeals, IsLaneLines};
ghost use Rattle.vk_board.specs.Reading.{com_line, posted_line, seats_of, is_new_seat, seat_line, reserve_at, unsold_line, winner_line, head_at, seal_at, seal_lines_at, seals_at, lane_at, seat_at, lane_begun_at, wires_at, HasRead, IsAmongSeals};

use crate::board::{Head, LaneLines, SealLines};
use std::alloc::Global;
use std::marker::PhantomData;
use vk_io::Shelf;
use vk_lines::{
    DigestsLine, LineKind, Lines, ReadErr, behind_word, one_field, read_decimal, read_many,
    read_number, read_residue, read_word,
};
use vk_residue::Residue;
use vk_seq::Seq;
use vk_wire::WireCom;

/// Reads the head of a board: seven lines with version 1, eight with version 2. Malformed carries
/// the number of the first line that isn't what its place demands.
#[tactic(auto, unfolding(crate::specs::Reading::head_at))]
pub fn read_head<S: Shelf>(shelf: &mut S, lines: &mut Lines) -> Result<Head, ReadErr>
    ensures reads { ReadsFreely head_at S.held S.Shelf.faults S.Shelf.wants
        lines.old lines.new shelf.old shelf.new result }
    ensures right { IfOk result IsHead }
{
    let version = lines.read_number(shelf, b"vickrey-board", 1, 2)?;
    let auction = lines.read_id(shelf, b"auction")?;
    let width = lines.read_number(shelf, b"width", 1, 40)?;
    let count = lines.read_number(shelf, b"lanes", 1, 64)?;
    let seals = lines.read_number(shelf, b"seals", 1, 64)?;
    let reserve = read_reserve(shelf, lines, version)?;
    let winner = read_winner(shelf, lines, version)?;
    let price = lines.read_number(shelf, b"price", 0, u64::MAX)?;
    let size = HeadSize {
        version,
        width,
        lanes: count,
        seals,
    };
    Ok(head_from(&auction, size, reserve, winner, price))
}

/// The numbers of a head's first lines.
#[derive(Clone, Copy, Debug)]
struct HeadSize {
    version: u64,
    width: u64,
    lanes: u64,
    seals: u64,
}

/// A head of what was read.
fn head_from(
    auction: &[u8; 16],
    size: HeadSize,
    reserve: u64,
    winner: Option<u16>,
    price: u64,
) -> Head
    requires id { AreBytes 16 auction.now }
    requires version { IsVersion size.version }
    requires width { (1 ≤ size.width) × (size.width ≤ 40) }
    requires lanes { (1 ≤ size.lanes) × (size.lanes ≤ 64) }
    requires seals { (1 ≤ size.seals) × (size.seals ≤ 64) }
    requires reserve { IsReserve size.version reserve }
    requires winner { IsWinner size.version winner }
    ensures value { result ≡ record {
      auction = auction.now;
      version = size.version;
      width = size.width;
      lanes = size.lanes;
      seals = size.seals;
      reserve = reserve;
      winner =
          winner;
      price = price;
    } }
    ensures right { IsHead result }
{
    Head {
        auction: *auction,
        version: size.version as u32,
        width: size.width as u32,
        lanes: size.lanes as u32,
        seals: size.seals as u32,
        reserve,
        winner,
        price,
    }
}

/// Reads the reserve that version 2 names; version 1 has no such line, and the reserve 0.
#[tactic(auto, unfolding(crate::specs::Reading::reserve_at))]
fn read_reserve<S: Shelf>(shelf: &mut S, lines: &mut Lines, version: u64) -> Result<u64, ReadErr>
    ensures reads { ReadsFreely (reserve_at version) S.held S.Shelf.faults S.Shelf.wants
        lines.old lines.new shelf.old shelf.new result }
    ensures right { IfOk result (IsReserve version) }
{
    if version != 2 {
        return Ok(0);
    }
    let reserve = lines.read_number(shelf, b"reserve", 0, u64::MAX)?;
    Ok(reserve)
}

/// Reads the seat that won. None where the line says that nothing is sold, as it may with version
/// 2.
#[tactic(auto, unfolding(vk_lines::specs::Lines::line_by))]
fn read_winner<S: Shelf>(
    shelf: &mut S,
    lines: &mut Lines,
    version: u64,
) -> Result<Option<u16>, ReadErr>
    ensures reads { ReadsFreely (line_by (winner_line version)) S.held S.Shelf.faults S.Shelf.wants
        lines.old lines.new shelf.old shelf.new result }
    ensures right { IfOk result (IsWinner version) }
{
    lines.read_text(shelf)?;
    let winner = lines.require(winner_of(lines.text(), version));
    winner
}

/// What the winner's line tells.
fn winner_of(text: &[u8], version: u64) -> Option<Option<u16>>
    ensures value { result ≡ winner_line version text.now }
    ensures right { IfSome result (IsWinner version) }
{
    match read_number(text, b"winner", 1, 65535) {
        Some(seat) => Some(Some(seat as u16)),
        None => unsold_of(text, version),
    }
}

/// That nothing is sold, where the line says so and the version knows of it.
fn unsold_of(text: &[u8], version: u64) -> Option<Option<u16>>
    ensures value { result ≡ unsold_line version text.now }
    ensures right { IfSome result (IsWinner version) }
{
    if version != 2 {
        return None;
    }
    read_word(text, b"unsold")?;
    Some(None)
}

/// Reads the seals of a board with this head, as read_seal_lines does.
pub fn read_seals<S: Shelf>(
    alloc: Global,
    shelf: &mut S,
    lines: &mut Lines,
    head: &Head,
) -> Result<Seq<SealLines>, ReadErr>
    ensures reads { ReadsRight (seals_at head.now) (AreSeals head.now) S.held S.Shelf.faults
        lines.old lines.new shelf.old shelf.new result }
    ensures wants { MayCause ReadErr.NoMemory result (S.Shelf.wants shelf.old)
        (S.Shelf.wants shelf.new) }
    ensures behind { IsErrOf result ReadErr.NoMemory
        → IsAmongSeals head.now.seals head.now.lanes (S.held shelf.old) lines.old lines.new
        ⊎ Rose (S.Shelf.wants shelf.old) (S.Shelf.wants shelf.new) }
{
    let seals = read_seal_lines(alloc, shelf, lines, head.seals, head.lanes)?;
    Ok(seals)
}

/// Reads this many seals of this many lanes. Malformed carries the number of the first line that
/// isn't what its place demands; a seat that an earlier seal has is a fault at its line. Memory is
/// taken before the first line, and in each seal behind the line that begins it.
pub fn read_seal_lines<S: Shelf>(
    alloc: Global,
    shelf: &mut S,
    lines: &mut Lines,
    count: u32,
    lanes: u32,
) -> Result<Seq<SealLines>, ReadErr>
    ensures reads { ReadsRight (seal_lines_at count lanes) (AreSealsOf count lanes)
        S.held S.Shelf.faults lines.old lines.new shelf.old shelf.new result }
    ensures wants { MayCause ReadErr.NoMemory result (S.Shelf.wants shelf.old)
        (S.Shelf.wants shelf.new) }
    ensures behind { IsErrOf result ReadErr.NoMemory
        → IsAmongSeals count lanes (S.held shelf.old) lines.old lines.new
        ⊎ Rose (S.Shelf.wants shelf.old) (S.Shelf.wants shelf.new) }
{
    let mut seals = Vec::with_capacity(alloc, count as usize)?;
    for index in 0..count {
        let seal = read_seal(alloc, shelf, lines, lanes, seals.as_slice())?;
        seals.push(seal)?;
    }
    Ok(Seq::from_vec(seals))
}

/// Reads a seal of so many lanes after those before it.
#[tactic(auto, unfolding(crate::specs::Reading::seal_at))]
fn read_seal<S: Shelf>(
    alloc: Global,
    shelf: &mut S,
    lines: &mut Lines,
    lanes: u32,
    before: &[SealLines],
) -> Result<SealLines, ReadErr>
    ensures reads { ReadsRight (seal_at lanes before.now) (IsSealAfter lanes before.now)
        S.held S.Shelf.faults lines.old lines.new shelf.old shelf.new result }
    ensures wants { MayCause ReadErr.NoMemory result (S.Shelf.wants shelf.old)
        (S.Shelf.wants shelf.new) }
    ensures behind { IsErrOf result ReadErr.NoMemory
        → HasRead (seat_at before.now) (S.held shelf.old) lines.old lines.new
        ⊎ Rose (S.Shelf.wants shelf.old) (S.Shelf.wants shelf.new) }
{
    let seat = read_seat(shelf, lines, before)?;
    let coms = read_coms(alloc, shelf, lines, b"x", lanes)?;
    Ok(seal_from(seat, coms, lanes, before))
}

/// A seal of what was read.
fn seal_from(seat: u16, coms: Seq<WireCom>, lanes: u32, before: &[SealLines]) -> SealLines
    requires some_seat { 1 ≤ seat }
    requires new_seat { is_new_seat (seats_of before.now) seat ≡ true }
    requires count { length coms ≡ lanes }
    requires digests { All IsCom coms }
    ensures value { result ≡ record { seat = seat; coms = coms } }
    ensures right { IsSealAfter lanes before.now result }
{
    SealLines { seat, coms }
}

/// Reads the first line of a seal: a seat that none of those before has.
#[tactic(auto, unfolding(vk_lines::specs::Lines::line_by))]
fn read_seat<S: Shelf>(
    shelf: &mut S,
    lines: &mut Lines,
    before: &[SealLines],
) -> Result<u16, ReadErr>
    ensures reads { ReadsFreely (line_by (seat_line (seats_of before.now)))
        S.held S.Shelf.faults S.Shelf.wants lines.old lines.new shelf.old shelf.new result }
    ensures some { IfOk result (λ seat. 1 ≤ seat) }
    ensures new { IfOk result (λ seat. is_new_seat (seats_of before.now) seat ≡ true) }
{
    lines.read_text(shelf)?;
    let seat = lines.require(seat_of(lines.text(), before));
    seat
}

/// The seat of a seal's first line.
fn seat_of(text: &[u8], before: &[SealLines]) -> Option<u16>
    ensures value { result ≡ seat_line (seats_of before.now) text.now }
    ensures some { IfSome result (λ seat. 1 ≤ seat) }
    ensures new { IfSome result (λ seat. is_new_seat (seats_of before.now) seat ≡ true) }
{
    let field = one_field(behind_word(text, b"seal")?)?;
    let seat = read_decimal(field, 65535)?;
    if seat < 1 {
        return None;
    }
    let seat = seat as u16;
    if is_new_seat(before, seat) {
        Some(seat)
    } else {
        None
    }
}

/// Whether none of the seals has this seat.
fn is_new_seat(before: &[SealLines], seat: u16) -> bool
    ensures { result ≡ is_new_seat (seats_of before.now) seat }
{
    for earlier in before {
        if earlier.seat == seat {
            return false;
        }
    }
    true
}

/// Reads what a board says of the lane of that number, from 1: this many wires' commitments and
/// this many rows' numbers. Malformed carries the number of the first line that isn't what its
/// place demands.
#[tactic(auto, unfolding(crate::specs::Reading::lane_at, crate::specs::Reading::wires_at))]
pub fn read_lane<S: Shelf>(
    alloc: Global,
    shelf: &mut S,
    lines: &mut Lines,
    lane: u32,
    wires: u32,
    rows: u32,
) -> Result<LaneLines, ReadErr>
    ensures reads { ReadsRight (lane_at lane wires rows) (IsLaneLines wires rows)
        S.held S.Shelf.faults lines.old lines.new shelf.old shelf.new result }
    ensures wants { MayCause ReadErr.NoMemory result (S.Shelf.wants shelf.old)
        (S.Shelf.wants shelf.new) }
    ensures behind { IsErrOf result ReadErr.NoMemory
        → HasRead (lane_begun_at lane) (S.held shelf.old) lines.old lines.new
        ⊎ HasRead (wires_at lane wires) (S.held shelf.old) lines.old lines.new
        ⊎ Rose (S.Shelf.wants shelf.old) (S.Shelf.wants shelf.new) }
{
    lines.read_number(shelf, b"lane", u64::from(lane), u64::from(lane))?;
    let coms = read_coms(alloc, shelf, lines, b"w", wires)?;
    let posted = read_many(alloc, shelf, lines, &PostedLine, rows)?;
    Ok(lane_from(coms, posted, wires, rows))
}

/// A lane of what was read.
fn lane_from(coms: Seq<WireCom>, posted: Seq<Residue>, wires: u32, rows: u32) -> LaneLines
    requires wires { length coms ≡ wires }
    requires rows { length posted ≡ rows }
    requires digests { All IsCom coms }
    requires posted { All IsResidue posted }
    ensures value { result ≡ record { coms = coms; posted = posted } }
    ensures right { IsLaneLines wires rows result }
{
    LaneLines { coms, posted }
}

/// Reads so many lines of this word and two commitments.
fn read_coms<S: Shelf>(
    alloc: Global,
    shelf: &mut S,
    lines: &mut Lines,
    word: &[u8],
    count: u32,
) -> Result<Seq<WireCom>, ReadErr>
    ensures reads { Reads (many_at count (λ _. line_by (com_line word.now))) S.held S.Shelf.faults
        lines.old lines.new shelf.old shelf.new result }
    ensures number { IfOk result (λ coms. length coms ≡ count) }
    ensures digests { IfOk result (All IsCom) }
    ensures wants { MayCause ReadErr.NoMemory result (S.Shelf.wants shelf.old)
        (S.Shelf.wants shelf.new) }
    ensures first { IsErrOf result ReadErr.NoMemory
        → (lines.new ≡ lines.old) ⊎ Rose (S.Shelf.wants shelf.old) (S.Shelf.wants shelf.new) }
{
    let made = PhantomData;
    let coms = read_many(alloc, shelf, lines, &DigestsLine { word, made }, count)?;
    Ok(coms)
}

/// The line of a row.
#[derive(Drop)]
struct PostedLine;

impl LineKind for PostedLine {
    ghost use Rattle.vk_residue.specs.Residue.{IsResidue};
    ghost use Rattle.vk_board.specs.Reading.{posted_line};

    type Item = Residue;

    ghost item_of = { λ _ _ text. posted_line text };

    ghost is_item = { λ _ _ number. IsResidue number };

    fn read(&self, _number: u32, text: &[u8]) -> Option<Residue> {
        let field = one_field(behind_word(text, b"d")?)?;
        let number = read_residue(field)?;
        Some(number)
    }
}
