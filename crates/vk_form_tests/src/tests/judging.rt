// Replies to a sum file that an honest prover made, and what isn't accepted.
use super::files::{NUMBERS, put_files};
use crate::{extract, judge};
use std::alloc::Global;
use std::process::Abort;
use std::test::Fail;
use vk_bids::{Extraction, LaneBids};
use vk_io::MemShelf;
use vk_judge::{Fault, OneReply, Part, Refusal, TwoReplies, VErr};
use vk_wire::WireFault;

/// Whether the lane opens these numbers, in the order of the seals.
fn opens(lane: &LaneBids, numbers: &[u64]) -> bool {
    let mut left = numbers;
    for bid in lane.bids.as_slice() {
        match left.split_first() {
            Some((number, rest)) if bid.bid.get() == *number => left = rest,
            _ => return false,
        }
    }
    left.is_empty()
}

/// What is judged of these files.
fn judged(
    alloc: Global,
    shelf: &mut MemShelf,
    file: &str,
    challenge: &str,
    reply: &str,
) -> Result<Result<(), Refusal<()>>, VErr> {
    let names = OneReply {
        file,
        challenge,
        reply,
    };
    let judged = judge(alloc, shelf, &names)?;
    Ok(judged)
}

/// What is tried of the files of an honest prover.
#[derive(Clone, Copy)]
enum Trial {
    Accepted,
    WrongOpening,
}

/// Writes the files, and tries them. They are made and dropped here alone, and lent to what is
/// tried: what an error drops takes seconds to prove.
fn on_files(rt: &impl Abort, alloc: Global, trial: Trial) -> Result<(), Fail> {
    let mut shelf = MemShelf::new(alloc);
    put_files(alloc, &mut shelf)?;
    match trial {
        Trial::Accepted => try_accepted(rt, alloc, &mut shelf),
        Trial::WrongOpening => try_wrong_opening(rt, alloc, &mut shelf),
    }
    Ok(())
}

#[test]
fn accepted_replies_open_the_numbers_in_both_lanes(rt: HostRuntime) -> Result<(), Fail> {
    on_files(&rt, rt.alloc(), Trial::Accepted)?;
    Ok(())
}

fn try_accepted(rt: &impl Abort, alloc: Global, shelf: &mut MemShelf) {
    assert!(rt; judged(alloc, shelf, "file", "01", "to 01") == Ok(Ok(())));
    assert!(rt; judged(alloc, shelf, "file", "10", "to 10") == Ok(Ok(())));
    let names = TwoReplies {
        file: "file",
        challenge1: "01",
        reply1: "to 01",
        challenge2: "10",
        reply2: "to 10",
    };
    let found = extract(alloc, shelf, &names);
    assert!(rt; matches!(found, Ok(Extraction::Bids(_))));
    if let Ok(Extraction::Bids(found)) = found {
        try_opened(rt, found.opened.lanes.as_slice());
    }
}

fn try_opened(rt: &impl Abort, lanes: &[LaneBids]) {
    assert!(rt; lanes.len() == 2);
    assert!(rt; opens(&lanes[0], &NUMBERS) && opens(&lanes[1], &NUMBERS));
}

#[test]
fn a_wrong_opening_is_refused_at_its_wire(rt: HostRuntime) -> Result<(), Fail> {
    on_files(&rt, rt.alloc(), Trial::WrongOpening)?;
    Ok(())
}

fn try_wrong_opening(rt: &impl Abort, alloc: Global, shelf: &mut MemShelf) {
    let fault = Fault::Wire {
        lane: 1,
        wire: 3,
        fault: WireFault::Digest { second: false },
    };
    assert!(rt; judged(alloc, shelf, "file", "01", "other") == Ok(Err(Refusal::Fault(fault))));
}

#[test]
fn a_total_above_21_is_the_fault_line(rt: HostRuntime) {
    let mut shelf = MemShelf::new(rt.alloc());
    let file = b"sum-file 1\nauction 000102030405060708090a0b0c0d0e0f\nsum 22\n";
    assert!(rt; shelf.put_file("file", file).is_ok());
    let fault = Fault::Malformed {
        part: Part::Board,
        line: 3,
    };
    assert!(rt;
        judged(rt.alloc(), &mut shelf, "file", "file", "file") == Ok(Err(Refusal::Fault(fault)))
    );
}
