// What is gathered of the lanes that two replies give.
ghost use Rattle.std.specs.Prelude.{◌≡◌, ◌≤◌, ◌++◌, Ok, Err, All, IfErr, IfOk, IfSome, IsErr, OnErr, OnOk, false, true};
ghost use Rattle.std.specs.Option.{option_to_list};
ghost use Rattle.vk_row.specs.Lanes.{IsAccepted};
ghost use Rattle.vk_judge.specs.Common.{IsTwoLane, MemoryWasWanting, checked_base, checked_given};
ghost use Rattle.vk_bids.specs.Gathering.{IsClashOf, IsLastLane, added, bids_of, lane_found};
ghost use Rattle.vk_bids.specs.Opening.{IsCaseOf, LaneOpens};

use crate::bids::LaneBids;
use crate::extracting::extract_bids;
use std::alloc::Global;
use vk_commit::TwoOpenings;
use vk_extractor::LaneErr;
use vk_judge::{Checker, Statement, TwoLane};
use vk_residue::NoMemory;
use vk_row::LaneCase;
use vk_seq::Seq;
use vk_wire::Shown;

/// The bids of the lanes so far, or the first clash.
pub type Gathered = Result<Seq<LaneBids>, TwoOpenings>;

/// With what the lane gives, which is the last that was given. After a clash nothing is gathered.
///
/// A clash, of this lane or of one before it, is answered whatever memory there is. Errs for want
/// of memory, where there is none.
pub fn with_lane<H: Drop, R: Copy>(
    alloc: Global,
    checker: &Checker<H, R>,
    lane: &TwoLane,
    before: Gathered,
) -> Result<Gathered, NoMemory>
    requires { IsLastLane checker.now lane.now }
    ensures added { IfSome (checked_base checker.now) (λ known. IfOk result (λ after.
        added known.base.statement (checked_given checker.now) lane.now before ≡ after)) }
    ensures clash { IfSome (checked_base checker.now) (λ known.
        IfErr (added known.base.statement (checked_given checker.now) lane.now before)
        (λ two. result ≡ Ok (Err two))) }
    ensures wanting { IsErr result → MemoryWasWanting }
    ensures opens { IfSome (checked_base checker.now)
        (λ known. IfOk before (All (LaneOpens known.base.statement))
        → IfOk result (λ after. IfOk after (All (LaneOpens known.base.statement)))) }
{
    match before {
        Ok(bids) => {
            let after = with_more(alloc, checker, lane, bids)?;
            Ok(after)
        }
        Err(two) => Ok(Err(two)),
    }
}

/// With the bids of the lane, or its first clash, which is answered whatever memory there is.
#[tactic(auto, using(vk_judge::specs::Wanting::memory_was_wanting))]
fn with_more<H: Drop, R: Copy>(
    alloc: Global,
    checker: &Checker<H, R>,
    lane: &TwoLane,
    before: Seq<LaneBids>,
) -> Result<Gathered, NoMemory>
    requires { IsLastLane checker.now lane.now }
    ensures added { IfSome (checked_base checker.now) (λ known. IfOk result (λ after.
        added known.base.statement (checked_given checker.now) lane.now (Ok before) ≡ after)) }
    ensures clash { IfSome (checked_base checker.now) (λ known.
        IfErr (lane_found known.base.statement (checked_given checker.now) lane.now)
        (λ two. result ≡ Ok (Err two))) }
    ensures wanting { IsErr result → MemoryWasWanting }
    ensures opens { IfSome (checked_base checker.now)
        (λ known. All (LaneOpens known.base.statement) before
        → IfOk result (λ after. IfOk after (All (LaneOpens known.base.statement)))) }
{
    let mut bids = before;
    let number = u32::from(lane.case.lane);
    match add_lane(alloc, checker.statement(), number, lane, &mut bids) {
        Ok(()) => Ok(Ok(bids)),
        Err(refused) => match refused.clash() {
            Some(two) => Ok(Err(two)),
            None => Err(NoMemory),
        },
    }
}

/// Appends the bids of the lane, counted from 1, where its two bits differ. Nothing is appended
/// where they are the same.
///
/// Errs, with the bids as before, where a commitment of the lane was opened with two values, and
/// then answers the first such one's two openings; and for want of memory.
pub fn add_lane(
    alloc: Global,
    statement: &Statement,
    number: u32,
    lane: &TwoLane,
    bids: &mut Seq<LaneBids>,
) -> Result<(), LaneErr>
    requires first { 1 ≤ number }
    requires last { number ≤ statement.now.lanes }
    requires lane { IsTwoLane statement.now number lane.now }
    ensures added { OnOk result (added statement.now number lane.now (Ok bids.old) ≡ Ok bids.new) }
    ensures opens { OnOk result
        (All (LaneOpens statement.now) bids.old → All (LaneOpens statement.now) bids.new) }
    ensures clash { IfErr (lane_found statement.now number lane.now)
        (λ two. result ≡ Err (LaneErr.Clash two)) }
    ensures refused { IfErr result
        (λ refused. IsClashOf refused (lane_found statement.now number lane.now)) }
    ensures as_before { OnErr result (bids.new ≡ bids.old) }
{
    let found = bids_in(alloc, statement, number, lane)?;
    push_found(bids, found)?;
    Ok(())
}

/// Appends the bids, if there are any.
fn push_found(bids: &mut Seq<LaneBids>, found: Option<LaneBids>) -> Result<(), NoMemory>
    ensures pushed { OnOk result (bids.new ≡ bids.old ++ option_to_list found) }
    ensures as_before { OnErr result (bids.new ≡ bids.old) }
{
    match found {
        None => Ok(()),
        Some(found) => {
            bids.push(found)?;
            Ok(())
        }
    }
}

/// The bids of the lane, where its two bits differ.
#[tactic(auto, using(crate::proofs::Gathered::accepted_for))]
fn bids_in(
    alloc: Global,
    statement: &Statement,
    number: u32,
    lane: &TwoLane,
) -> Result<Option<LaneBids>, LaneErr>
    requires first { 1 ≤ number }
    requires last { number ≤ statement.now.lanes }
    requires lane { IsTwoLane statement.now number lane.now }
    ensures found { IfOk result (λ found. lane_found statement.now number lane.now ≡ Ok found) }
    ensures opens { IfOk result (λ found. IfSome found (LaneOpens statement.now)) }
    ensures clash { IfErr (lane_found statement.now number lane.now)
        (λ two. result ≡ Err (LaneErr.Clash two)) }
    ensures refused { IfErr result
        (λ refused. IsClashOf refused (lane_found statement.now number lane.now)) }
{
    let first = lane.first.as_slice();
    let second = lane.second.as_slice();
    match (lane.first_bit, lane.second_bit) {
        (false, true) => bids_of(alloc, statement, number, &lane.case, first, second),
        (true, false) => bids_of(alloc, statement, number, &lane.case, second, first),
        _ => Ok(None),
    }
}

/// The bids of the lane, from what is shown of it for bit 0 and for bit 1.
fn bids_of(
    alloc: Global,
    statement: &Statement,
    number: u32,
    case: &LaneCase,
    zero: &[Shown],
    one: &[Shown],
) -> Result<Option<LaneBids>, LaneErr>
    requires first { 1 ≤ number }
    requires last { number ≤ statement.now.lanes }
    requires case { IsCaseOf statement.now number case.now }
    requires zero { IsAccepted statement.now.plan case.now false zero.now }
    requires one { IsAccepted statement.now.plan case.now true one.now }
    ensures found { IfOk result
        (λ found. bids_of statement.now number case.now zero.now one.now ≡ Ok found) }
    ensures opens { IfOk result (λ found. IfSome found (LaneOpens statement.now)) }
    ensures clash { IfErr (bids_of statement.now number case.now zero.now one.now)
        (λ two. result ≡ Err (LaneErr.Clash two)) }
    ensures refused { IfErr result
        (λ refused. IsClashOf refused (bids_of statement.now number case.now zero.now one.now)) }
{
    let bids = extract_bids(alloc, statement, number, case, zero, one)?;
    Ok(Some(bids))
}
