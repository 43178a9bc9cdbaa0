//! The challenge that is derived from a board's bytes.

ghost use Rattle.std.specs.Prelude.{◌≡◌, ◌++◌, IfOk, IfSome, OnOk};
ghost use Rattle.std.specs.List.{flat_map};
ghost use Rattle.vk_residue.specs.Limits.{IsLaneCount};
ghost use Rattle.vk_lines.specs.Common.{Gives, OnlyReads, Reads};
ghost use Rattle.vk_board.specs.Fronts.{IsFront, front_text};
ghost use Rattle.vk_board.specs.Texts.{lane_text, seal_lines_text};
ghost use Rattle.vk_report.specs.Bits.{leading_bits};
ghost use Rattle.vk_report.specs.Meaning.{auction_shape};
ghost use Rattle.vk_report.specs.Reports.{fault_of, lanes_passed, report_on, report_with};
ghost use Rattle.vk_reply.specs.Values.{IsChallenge};
ghost use Rattle.vk_coin.specs.Derived.{Hashes, HashesBoard, HashesLanes, IsOfOneText, derived_in};

use sha2::{Digest, Sha256};
use std::alloc::Global;
use vk_board::{
    Front, FrontErr, LaneLines, SealLines, head_text, lane_text, read_front, read_lane,
    seal_lines_text,
};
use vk_io::Shelf;
use vk_lines::{Lines, ReadErr};
use vk_reply::Challenge;
use vk_report::{ReportErr, leading_bits, row_count_of, wire_count_of};
use vk_residue::NoMemory;

/// The challenge for its lanes that is derived from the named board: the first bits of SHA-256 of
/// `VKD1` and the file's bytes, the most significant of each byte first. The board is tested as
/// [`vk_report::read_report`] tests it, and refused for the same faults.
///
/// The file is read once. What is hashed is the text of each part of the board that was read and
/// tested, and a part is read from its text alone: so these are the file's bytes, and no others
/// where the file is changed meanwhile.
#[tactic(auto, unfolding(crate::specs::Derived::derived_in))]
pub fn board_challenge<S: Shelf>(
    alloc: Global,
    shelf: &mut S,
    board: &str,
) -> Result<Challenge, ReportErr>
    ensures modelled { IfSome (S.held shelf.old) (λ files.
        Gives fault_of (λ challenge. challenge) result (derived_in files board.now)) }
    ensures one { IfOk result IsOfOneText }
    ensures right { IfOk result IsChallenge }
    ensures shelf { OnlyReads S.held S.Shelf.faults ReportErr.Failed result shelf.old shelf.new }
{
    let mut hasher = Sha256::new_with_prefix(b"VKD1".as_slice());
    let front = hash_board(alloc, shelf, board, &mut hasher)?;
    let digest = hasher.finalize();
    let Ok(challenge) = challenge_of(alloc, &digest, front.head.lanes) else {
        return Err(ReportErr::NoMemory);
    };
    Ok(challenge)
}

/// Reads the named board to its end, and hashes the text of what was read.
#[tactic(auto, unfolding(vk_report::specs::Reports::report_on, vk_report::specs::Reports::report_at))]
fn hash_board<S: Shelf>(
    alloc: Global,
    shelf: &mut S,
    board: &str,
    hasher: &mut Sha256,
) -> Result<Front, ReportErr>
    ensures modelled { IfSome (S.held shelf.old) (λ files.
        Gives fault_of (λ front. report_with front) result (report_on files board.now)) }
    ensures right { IfOk result IsFront }
    ensures hashed { IfOk result
        (λ front. HashesBoard (S.held shelf.old) board.now front hasher.old hasher.new) }
    ensures shelf { OnlyReads S.held S.Shelf.faults ReportErr.Failed result shelf.old shelf.new }
{
    let mut lines = Lines::start(alloc, shelf, board)?;
    let front = read_front(alloc, shelf, &mut lines)?;
    let Ok(text) = front_text(alloc, &front) else {
        return Err(ReportErr::NoMemory);
    };
    hasher.update(text.as_slice());
    let wires = wire_count_of(&front.head) - front.head.seals;
    let rows = row_count_of(&front.head);
    hash_lanes(alloc, shelf, &mut lines, &front, wires, rows, hasher).map_err(FrontErr::from)?;
    lines.read_end(shelf).map_err(FrontErr::from)?;
    hasher.update(b"end\n".as_slice());
    Ok(front)
}

/// What stands on a board before its first lane, as text.
fn front_text(alloc: Global, front: &Front) -> Result<Vec<u8>, NoMemory>
    ensures { IfOk result (λ text. text.items ≡ front_text front.now) }
{
    let mut text = head_text(alloc, &front.head)?;
    push_seals(alloc, &mut text, front.seals.as_slice())?;
    Ok(text)
}

/// Appends the texts of the seals.
fn push_seals(alloc: Global, out: &mut Vec<u8>, seals: &[SealLines]) -> Result<(), NoMemory>
    ensures { OnOk result (out.new.items
        ≡ out.old.items ++ flat_map seal_lines_text seals.now) }
{
    for seal in seals {
        push_seal(alloc, out, seal)?;
    }
    Ok(())
}

/// Appends the text of a seal.
fn push_seal(alloc: Global, out: &mut Vec<u8>, seal: &SealLines) -> Result<(), NoMemory>
    ensures { OnOk result (out.new.items ≡ out.old.items ++ seal_lines_text seal.now) }
{
    let text = seal_lines_text(alloc, seal)?;
    out.extend_from_slice(text.as_slice())?;
    Ok(())
}

/// Reads the lanes of the board with this front, each of so many wires behind its inputs and so
/// many rows, and hashes the text of each once it was read.
fn hash_lanes<S: Shelf>(
    alloc: Global,
    shelf: &mut S,
    lines: &mut Lines,
    front: &Front,
    wires: u32,
    rows: u32,
    hasher: &mut Sha256,
) -> Result<(), ReadErr>
    requires wires { wires ≡ (auction_shape front.now.head).wires }
    requires rows { rows ≡ (auction_shape front.now.head).rows }
    ensures reads { Reads (lanes_passed (report_with front.now)) S.held S.Shelf.faults
        lines.old lines.new shelf.old shelf.new result }
    ensures hashed { OnOk result (HashesLanes (S.held shelf.old) front.now.head.lanes
        (auction_shape front.now.head) lines.old lines.new hasher.old hasher.new) }
{
    for index in 0..front.head.lanes {
        let lane = read_lane(alloc, shelf, lines, index + 1, wires, rows)?;
        let Ok(()) = hash_lane(alloc, index + 1, &lane, hasher) else {
            return Err(ReadErr::NoMemory);
        };
    }
    Ok(())
}

/// Hashes the lane of that number, from 1.
fn hash_lane(
    alloc: Global,
    number: u32,
    lane: &LaneLines,
    hasher: &mut Sha256,
) -> Result<(), NoMemory>
    ensures { OnOk result (Hashes (lane_text number lane.now) hasher.old hasher.new) }
{
    let text = lane_text(alloc, number, lane)?;
    hasher.update(text.as_slice());
    Ok(())
}

/// The challenge of the first bits of a digest.
fn challenge_of(alloc: Global, digest: &[u8; 32], lanes: u32) -> Result<Challenge, NoMemory>
    requires { IsLaneCount lanes }
    ensures bits { IfOk result
        (λ challenge. challenge ≡ record { bits = leading_bits lanes digest.now }) }
    ensures right { IfOk result IsChallenge }
{
    let bits = leading_bits(alloc, digest, lanes)?;
    Ok(Challenge { bits })
}
