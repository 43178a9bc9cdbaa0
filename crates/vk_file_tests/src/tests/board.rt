// The smallest board, read part by part and written back, heads with a reserve, and the winner of
// three seals. Boards that are refused are replayed by the program `conformance`.
use super::files::{Given, board};
use std::alloc::Global;
use std::panic::Expect;
use std::process::Abort;
use vk_board::{
    Head, LaneLines, SealLines, head_text, lane_text, read_front, read_head, read_lane, read_seals,
    seal_lines_text, seats_of,
};
use vk_lines::ReadErr;
use vk_residue::NoMemory;
use vk_seq::Seq;

const ID: [u8; 16] = [0, 1, 2, 3, 4, 5, 6, 7, 8, 9, 10, 11, 12, 13, 14, 15];

/// The parts of the smallest board.
#[derive(Drop)]
struct Parts {
    head: Head,
    seals: Seq<SealLines>,
    lane: LaneLines,
}

/// The parts of the file, which is the smallest board.
fn parts_in(rt: &impl Abort, alloc: Global, bytes: &[u8]) -> Result<Parts, ReadErr> {
    let mut shelf = Given::of(bytes);
    let mut lines = shelf.lines(rt, alloc);
    let head = read_head(&mut shelf, &mut lines)?;
    let seals = read_seals(alloc, &mut shelf, &mut lines, &head)?;
    let lane = read_lane(alloc, &mut shelf, &mut lines, 1, 2, 2)?;
    lines.read_end(&mut shelf)?;
    Ok(Parts { head, seals, lane })
}

/// The parts as a file.
fn text_of(alloc: Global, parts: &Parts) -> Result<Vec<u8>, NoMemory> {
    let mut written = head_text(alloc, &parts.head)?;
    push_seals(alloc, &mut written, parts.seals.as_slice())?;
    push_lane(alloc, &mut written, &parts.lane)?;
    Ok(written)
}

fn push_seals(alloc: Global, written: &mut Vec<u8>, seals: &[SealLines]) -> Result<(), NoMemory> {
    for seal in seals {
        let text = seal_lines_text(alloc, seal)?;
        written.extend_from_slice(text.as_slice())?;
    }
    Ok(())
}

fn push_lane(alloc: Global, written: &mut Vec<u8>, lane: &LaneLines) -> Result<(), NoMemory> {
    let text = lane_text(alloc, 1, lane)?;
    written.extend_from_slice(text.as_slice())?;
    written.extend_from_slice(b"end\n")?;
    Ok(())
}

/// Whether the parts as a file are these bytes.
fn are_written(alloc: Global, parts: &Parts, bytes: &[u8]) -> bool {
    match text_of(alloc, parts) {
        Ok(written) => written.as_slice() == bytes,
        Err(_) => false,
    }
}

#[test]
fn the_smallest_board_is_read_and_written_back(rt: HostRuntime) {
    assert!(rt; try_board(&rt, rt.alloc(), board()).is_ok());
}

fn try_board(rt: &impl Abort, alloc: Global, bytes: &[u8]) -> Result<(), ReadErr> {
    let parts = parts_in(rt, alloc, bytes)?;
    try_parts(rt, alloc, &parts, bytes);
    Ok(())
}

// What is tried below is borrowed: nothing is dropped where an assertion ends it, and so it is
// proved fast.

fn try_parts(rt: &impl Abort, alloc: Global, parts: &Parts, bytes: &[u8]) {
    let expected = Head {
        auction: ID,
        version: 1,
        width: 1,
        lanes: 1,
        seals: 1,
        reserve: 0,
        winner: Some(7),
        price: 0,
    };
    assert!(rt; parts.head == expected);
    assert!(rt; are_written(alloc, parts, bytes));
}

/// A head with a reserve, up to the line of its winner.
const RESERVED: &[u8] = b"vickrey-board 2\n\
auction 000102030405060708090a0b0c0d0e0f\n\
width 4\n\
lanes 2\n\
seals 3\n\
reserve 9\n";

/// The head of such a board.
fn reserved(winner: Option<u16>, price: u64) -> Head {
    Head {
        auction: ID,
        version: 2,
        width: 4,
        lanes: 2,
        seals: 3,
        reserve: 9,
        winner,
        price,
    }
}

#[test]
fn heads_with_a_reserve_are_written_and_read_back(rt: HostRuntime) {
    let sold = try_head(
        &rt,
        rt.alloc(),
        &reserved(Some(500), 9),
        b"winner 500\nprice 9\n",
    );
    assert!(rt; sold.is_ok());
    let unsold = try_head(&rt, rt.alloc(), &reserved(None, 0), b"unsold\nprice 0\n");
    assert!(rt; unsold.is_ok());
}

/// The head has the text of which these are the last two lines, and is read from it.
fn try_head(rt: &impl Abort, alloc: Global, head: &Head, end: &[u8]) -> Result<(), NoMemory> {
    let mut text = Vec::from_slice(alloc, RESERVED)?;
    text.extend_from_slice(end)?;
    let written = head_text(alloc, head)?;
    check_head(rt, alloc, head, written.as_slice(), text.as_slice());
    Ok(())
}

fn check_head(rt: &impl Abort, alloc: Global, head: &Head, written: &[u8], text: &[u8]) {
    assert!(rt; written == text);
    assert!(rt; head_in(rt, alloc, text) == Ok(*head));
}

/// The head that a board of these bytes begins with.
fn head_in(rt: &impl Abort, alloc: Global, bytes: &[u8]) -> Result<Head, ReadErr> {
    let mut shelf = Given::of(bytes);
    let mut lines = shelf.lines(rt, alloc);
    let head = read_head(&mut shelf, &mut lines)?;
    Ok(head)
}

/// A board of three seals, up to its first lane.
const THREE: &[u8] = b"vickrey-board 1\n\
auction 000102030405060708090a0b0c0d0e0f\n\
width 8\n\
lanes 1\n\
seals 3\n\
winner 500\n\
price 255\n\
seal 7\n\
x b2079e5725d4cf5d48e1669a4691a93c831a1c5c5452c1ba82c26e98a45f063c 137758937b8dcccf06a55ab35985cf8cb4b1f8468a8c9e0474e604df75f5f756\n\
seal 65535\n\
x 20a06f1a3323496729c1038259d91211b61848344387dafbe64812317568fb9b 03956c24c21e43fb35db1ae4e7f9107b2e932528192586c13c89d88b0fd0a291\n\
seal 500\n\
x 95dd93ea8976343596b4ec8e4bda5a20fa7abd4c09a635cd4d6a1ad16a135aa6 b6c14358a32a13c96be8d6b96bf302400574c9f5408d39cb9a89270b7914e5f3\n";

#[test]
fn the_winner_of_three_seals_is_found(rt: HostRuntime) {
    try_three(&rt, rt.alloc(), THREE);
}

fn try_three(rt: &impl Abort, alloc: Global, bytes: &[u8]) {
    let mut shelf = Given::of(bytes);
    let mut lines = shelf.lines(rt, alloc);
    let front = read_front(alloc, &mut shelf, &mut lines).expect(rt, "a front");
    assert!(rt; front.position == Some(3));
    assert!(rt; have_seats(alloc, front.seals.as_slice(), &[7, 65535, 500]));
}

fn have_seats(alloc: Global, seals: &[SealLines], expected: &[u16]) -> bool {
    match seats_of(alloc, seals) {
        Ok(seats) => seats.as_slice() == expected,
        Err(_) => false,
    }
}
