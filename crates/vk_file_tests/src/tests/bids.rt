// Bids and openings written out by hand. Extractions and confrontations are replayed by the program
// `conformance`.
use std::alloc::Global;
use std::process::Abort;
use vk_bids::{Extracted, LaneBids, OpenedBid, extraction_lines, openings_line};
use vk_board::{Front, Head, SealLines};
use vk_commit::{Opening, Place};
use vk_residue::{NoMemory, Residue};
use vk_seq::Seq;

const ID: [u8; 16] = [0, 1, 2, 3, 4, 5, 6, 7, 8, 9, 10, 11, 12, 13, 14, 15];

fn opening(key: u8, value: Residue) -> Opening {
    Opening {
        key: [key; 32],
        value,
    }
}

/// The bid of one seal in a lane.
fn lane_of(alloc: Global, number: u32, bid: Residue) -> Result<LaneBids, NoMemory> {
    let opened = OpenedBid {
        seat: 7,
        bid,
        first: opening(0x11, bid),
        second: opening(0x22, Residue::ZERO),
    };
    let bids = Vec::from_array(alloc, [opened])?;
    Ok(LaneBids {
        number,
        bids: Seq::from_vec(bids),
    })
}

/// What stands before the lanes of a board of one seal.
fn front_of_one(alloc: Global) -> Result<Front, NoMemory> {
    let mut seals = Seq::new(alloc);
    seals.push(SealLines {
        seat: 7,
        coms: Seq::new(alloc),
    })?;
    let head = Head {
        auction: ID,
        version: 1,
        width: 1,
        lanes: 5,
        seals: 1,
        reserve: 0,
        winner: Some(7),
        price: 0,
    };
    Ok(Front {
        head,
        seals,
        position: Some(1),
    })
}

/// Two lanes with the bids 0 and 1.
fn lanes_of_two(alloc: Global) -> Result<Seq<LaneBids>, NoMemory> {
    let mut lanes = Seq::new(alloc);
    lanes.push(lane_of(alloc, 3, Residue::ZERO)?)?;
    lanes.push(lane_of(alloc, 5, Residue::ONE)?)?;
    Ok(lanes)
}

fn two_lanes(alloc: Global) -> Result<Extracted, NoMemory> {
    let front = front_of_one(alloc)?;
    let lanes = lanes_of_two(alloc)?;
    Ok(Extracted { front, lanes })
}

#[test]
fn bids_that_differ_are_told(rt: HostRuntime) {
    assert!(rt; try_lines(&rt, rt.alloc()).is_ok());
}

fn try_lines(rt: &impl Abort, alloc: Global) -> Result<(), NoMemory> {
    let found = two_lanes(alloc)?;
    let lines = extraction_lines(alloc, &found)?;
    check_lines(rt, lines.as_slice());
    Ok(())
}

fn check_lines(rt: &impl Abort, lines: &[String]) {
    assert!(rt; lines.len() == 5);
    assert!(rt; lines[3].as_str() == "seat 7 differs\n");
}

#[test]
fn two_openings_are_printed(rt: HostRuntime) {
    let place = Place {
        auction: ID,
        seat: 65535,
        lane: 64,
        slot: 7,
    };
    let first = opening(0x0a, Residue::ONE.neg());
    let second = opening(0xb0, Residue::ZERO);
    let line = openings_line(&place, &[0x5c; 32], &first, &second);
    assert!(rt;
        line.as_bytes()
            == b"clash lane 64 seat 65535 slot 7 digest 5c5c5c5c5c5c5c5c5c5c5c5c5c5c5c5c5c5c5c5c5c5c5c5c5c5c5c5c5c5c5c5c first 0a0a0a0a0a0a0a0a0a0a0a0a0a0a0a0a0a0a0a0a0a0a0a0a0a0a0a0a0a0a0a0a 2305843009213693950 second b0b0b0b0b0b0b0b0b0b0b0b0b0b0b0b0b0b0b0b0b0b0b0b0b0b0b0b0b0b0b0b0 0\n".as_slice()
    );
}
