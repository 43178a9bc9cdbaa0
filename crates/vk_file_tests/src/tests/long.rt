// Files of more than 2^30 bytes, whose bytes nothing asks for.
use super::files::Given;
use std::alloc::Global;
use std::process::Abort;
use vk_judge::{Part, VErr};
use vk_lines::{Lines, StartErr, Step};
use vk_report::{ReportErr, read_report};
use vk_verifier::{TwoChecker, verdict};

/// A file of one byte more.
fn too_long() -> Given<'static> {
    Given::vast((1 << 30) + 1)
}

#[test]
fn lines_of_more_than_a_gibibyte_are_too_long(rt: HostRuntime) {
    try_long(&rt, rt.alloc());
    try_longest(&rt, rt.alloc());
}

fn try_long(rt: &impl Abort, alloc: Global) {
    let refused = Lines::start(alloc, &mut too_long(), "f").err();
    assert!(rt; refused == Some(StartErr::TooLong));
}

fn try_longest(rt: &impl Abort, alloc: Global) {
    let mut most = Given::vast(1073741824);
    let mut lines = most.lines(rt, alloc);
    let step = lines.next_line(&mut most);
    assert!(rt; matches!(step, Ok(Step::End)));
}

#[test]
fn a_report_of_more_than_a_gibibyte_is_too_long(rt: HostRuntime) {
    let refused = read_report(rt.alloc(), &mut too_long(), "board").err();
    assert!(rt; refused == Some(ReportErr::TooLong));
}

#[test]
fn a_board_of_more_than_a_gibibyte_is_too_long(rt: HostRuntime) {
    let refused = verdict(rt.alloc(), &mut too_long(), "b", "c", "r").err();
    assert!(rt; refused == Some(VErr::TooLong(Part::Board)));
    let begun = TwoChecker::start(rt.alloc(), &mut too_long(), "b", "c", "r", "d", "s").err();
    assert!(rt; begun == Some(VErr::TooLong(Part::Board)));
}
