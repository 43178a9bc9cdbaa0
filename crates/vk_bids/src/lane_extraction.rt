// What two replies open behind a front.
ghost use Rattle.std.specs.Prelude.{◌≡◌, All, IfOk, IfSome, IsErrOf};
ghost use Rattle.vk_judge.specs.Common.{IsCheckedOver, MemoryWasWanting, OnlyReads, checked_base, checked_finding, checked_given, coming_of};
ghost use Rattle.vk_bids.specs.FileExtraction.{ComesTo};
ghost use Rattle.vk_bids.specs.Opening.{LaneOpens};

use crate::bids::LaneBids;
use crate::gathering::{Gathered, with_lane};
use std::alloc::Global;
use vk_io::{OutsideErr, Shelf};
use vk_judge::{Checker, Statement};
use vk_seq::Seq;

/// What two accepted replies open behind a front.
#[derive(Debug, Drop)]
pub struct OpenedLanes {
    pub statement: Statement,
    /// The values of the lanes whose two bits differ, in order: of each lane one for each seal.
    pub lanes: Seq<LaneBids>,
}

/// Reads every lane, and gathers what they give up to the first clash.
pub fn gather<S: Shelf, H: Drop, R: Copy>(
    alloc: Global,
    shelf: &mut S,
    checker: Checker<H, R>,
) -> Result<(Checker<H, R>, Gathered), OutsideErr>
    requires { checked_given checker ≡ 0 }
    ensures modelled { IfOk result (λ end. IfSome (S.held shelf.old) (λ files.
        ComesTo (checked_base checker) (coming_of checker files).ahead (checked_finding end.0)
        end.1)) }
    ensures over { IfOk result (λ end. IsCheckedOver end.0) }
    ensures base { IfOk result (λ end. checked_base end.0 ≡ checked_base checker) }
    ensures opens { IfOk result (λ end. IfSome (checked_base end.0)
        (λ known. IfOk end.1 (All (LaneOpens known.base.statement)))) }
    ensures wanting { IsErrOf result OutsideErr.NoMemory → MemoryWasWanting }
    ensures shelf { OnlyReads S.held S.Shelf.faults OutsideErr.Failed result shelf.old shelf.new }
{
    let mut checker = checker;
    let mut gathered = Ok(Seq::new(alloc));
    'lanes: loop {
        let (next, lane) = checker.next_lane(alloc, shelf)?;
        checker = next;
        match lane {
            None => return Ok((checker, gathered)),
            Some(lane) => gathered = with_lane(alloc, &checker, &lane, gathered)?,
        }
    }
}
