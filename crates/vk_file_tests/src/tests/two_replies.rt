// Two replies to the smallest board, side by side; and a file that isn't held.
ghost use Rattle.std.specs.Prelude.{◌≡◌, IfOk, false};
ghost use Rattle.vk_judge.specs.Opened.{IsCheckedOver};

use super::files::shelf_of_files;
use std::alloc::Global;
use std::panic::Expect;
use std::process::Abort;
use vk_io::{MemShelf, OutsideErr};
use vk_judge::{Part, VErr};
use vk_verifier::{BoardVerdict, TwoChecker, TwoVerdict};
use vk_wire::WireFault;

#[test]
fn the_first_missing_file_is_named(rt: HostRuntime) {
    let mut shelf = shelf_of_files(rt.alloc()).expect(&rt, "files");
    let begun = TwoChecker::start(rt.alloc(), &mut shelf, "0", "0", "0", "g", "h").err();
    assert!(rt; begun == Some(VErr::Missing(Part::SecondChallenge)));
}

/// The checker behind the next lane, and whether there was one.
fn stepped(
    alloc: Global,
    shelf: &mut MemShelf,
    checker: TwoChecker,
) -> Result<(TwoChecker, bool), OutsideErr>
    ensures { IfOk result (λ next. next.1 ≡ false → IsCheckedOver next.0) }
{
    let (checker, lane) = checker.next_lane(alloc, shelf)?;
    Ok((checker, lane.is_some()))
}

/// What is found once no lane is given any more.
fn finding(checker: TwoChecker) -> TwoVerdict
    requires { IsCheckedOver checker }
{
    checker.finding()
}

/// How many lanes are given, and what is found then. None past the first lane.
fn course(
    alloc: Global,
    shelf: &mut MemShelf,
    checker: TwoChecker,
) -> Result<Option<(u32, TwoVerdict)>, OutsideErr> {
    let (checker, some) = stepped(alloc, shelf, checker)?;
    if !some {
        return Ok(Some((0, finding(checker))));
    }
    let (checker, more) = stepped(alloc, shelf, checker)?;
    if more {
        return Ok(None);
    }
    Ok(Some((1, finding(checker))))
}

/// The first wire after the inputs is opened with another value than its second entry has.
const WRONG_WIRE: BoardVerdict = BoardVerdict::Wire {
    lane: 1,
    wire: 1,
    fault: WireFault::Digest { second: true },
};

fn refused(second: bool, verdict: BoardVerdict) -> TwoVerdict {
    TwoVerdict::Refused { second, verdict }
}

fn malformed(part: Part, line: u64) -> BoardVerdict {
    BoardVerdict::Malformed { part, line }
}

/// A challenge and the reply to it.
type Answered = (&'static str, &'static str);

/// Of two replies to a board of one lane, each to its challenge, so many lanes are given, and then
/// this is found.
fn try_two(
    rt: &impl Abort,
    alloc: Global,
    shelf: &mut MemShelf,
    board: &'static str,
    first: Answered,
    second: Answered,
    expected: (u32, TwoVerdict),
) {
    let begun = TwoChecker::start(alloc, shelf, board, first.0, first.1, second.0, second.1);
    let found = course(alloc, shelf, begun.expect(rt, "begun"));
    assert!(rt; found == Ok(Some(expected)));
}

#[test]
fn two_replies_give_their_lanes_and_come_to_a_verdict(rt: HostRuntime) {
    let mut shelf = shelf_of_files(rt.alloc()).expect(&rt, "files");
    try_accepted(&rt, rt.alloc(), &mut shelf);
    try_refused(&rt, rt.alloc(), &mut shelf);
    try_malformed(&rt, rt.alloc(), &mut shelf);
}

const TO_0: Answered = ("0", "to 0");

const TO_1: Answered = ("1", "to 1");

const LONGER: Answered = ("0", "longer");

const OTHER: Answered = ("1", "other");

fn try_accepted(rt: &impl Abort, alloc: Global, shelf: &mut MemShelf) {
    try_two(
        rt,
        alloc,
        shelf,
        "board",
        TO_0,
        TO_1,
        (1, TwoVerdict::Ready),
    );
    try_two(
        rt,
        alloc,
        shelf,
        "board",
        TO_1,
        TO_0,
        (1, TwoVerdict::Ready),
    );
    try_two(rt, alloc, shelf, "board", TO_1, TO_1, (1, TwoVerdict::Same));
}

fn try_refused(rt: &impl Abort, alloc: Global, shelf: &mut MemShelf) {
    let first = refused(false, WRONG_WIRE);
    let second = refused(true, WRONG_WIRE);
    try_two(rt, alloc, shelf, "board", TO_0, OTHER, (0, second));
    try_two(rt, alloc, shelf, "board", OTHER, LONGER, (0, first));
}

fn try_malformed(rt: &impl Abort, alloc: Global, shelf: &mut MemShelf) {
    let first = refused(false, malformed(Part::Reply, 8));
    let second = refused(true, malformed(Part::SecondReply, 8));
    let board = refused(false, malformed(Part::Board, 1));
    try_two(rt, alloc, shelf, "board", LONGER, OTHER, (0, first));
    try_two(rt, alloc, shelf, "board", TO_1, LONGER, (1, second));
    try_two(rt, alloc, shelf, "0", TO_0, TO_1, (0, board));
}
