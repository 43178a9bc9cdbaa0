// What is judged of one lane.
ghost use Rattle.std.specs.Prelude.{◌≡◌, ◌≤◌, ◌<◌, ◌++◌, All, length, IfSome, IfOk, OnOk, IsErrOf};
ghost use Rattle.vk_lines.specs.Lines.{OnlyReads, rest_of};
ghost use Rattle.vk_row.specs.Lanes.{HasCounts, IsAccepted};
ghost use Rattle.vk_row.specs.LaneTests.{checked_lane};
ghost use Rattle.vk_judge.specs.Statement.{IsStatement};
ghost use Rattle.vk_judge.specs.Behind.{Judges, JudgesOn, case_of, input_coms, lane_fault, lane_judged};
ghost use Rattle.vk_judge.specs.Parts.{case_at, reply_judged, IsLaneCase, Fits};

use crate::answers::{Fault, Part};
use crate::halt::{Halt, in_part};
use crate::stage::FileAndReply;
use crate::statement::Statement;
use std::alloc::Global;
use vk_board::{LaneLines, SealLines, read_lane, seats_of};
use vk_io::Shelf;
use vk_lines::Lines;
use vk_reply::read_reply_lane;
use vk_residue::NoMemory;
use vk_row::{LaneCase, LaneFault, check_lane_with};
use vk_seq::Seq;
use vk_wire::{Shown, WireCom};

/// The commitments of the seals in the lane, counted from 0, and then these.
fn coms_of(
    alloc: Global,
    seals: &[SealLines],
    index: usize,
    later: &[WireCom],
) -> Result<Seq<WireCom>, NoMemory>
    requires { All (λ seal. index < length seal.coms) seals.now }
    ensures { IfOk result (λ coms. coms ≡ input_coms index seals.now ++ later.now) }
{
    let mut coms = Vec::new(alloc);
    for seal in seals {
        coms.push(seal.coms.as_slice()[index])?;
    }
    coms.extend_from_slice(later)?;
    Ok(Seq::from_vec(coms))
}

/// All that is public of the lane, counted from 1.
fn case_of(
    alloc: Global,
    statement: &Statement,
    lane: u32,
    lines: LaneLines,
) -> Result<LaneCase, NoMemory>
    requires first { 1 ≤ lane }
    requires last { lane ≤ statement.now.lanes }
    ensures { IfOk result (λ case. case ≡ case_of statement.now lane lines) }
{
    let index = lane as usize - 1;
    let seats = seats_of(alloc, statement.seals())?;
    let coms = coms_of(alloc, statement.seals(), index, lines.coms.as_slice())?;
    Ok(LaneCase {
        auction: statement.auction(),
        lane: lane as u16,
        seats,
        coms,
        posted: lines.posted,
    })
}

/// Reads the lines of a lane in the file: all that is public of it.
#[tactic(auto, unfolding(crate::specs::Parts::case_at))]
pub fn read_case<S: Shelf>(
    alloc: Global,
    shelf: &mut S,
    statement: &Statement,
    lane: u32,
    file: &mut Lines,
) -> Result<LaneCase, Halt<Fault>>
    requires first { 1 ≤ lane }
    requires last { lane ≤ statement.now.lanes }
    ensures modelled { JudgesOn (S.held shelf.old) (rest_of file.new) result
        (λ files. case_at statement.now lane (rest_of file.old files)) }
    ensures right { IfOk result (IsLaneCase statement.now lane) }
    ensures fits { IfOk result (Fits statement.now.plan) }
    ensures shelf { OnlyReads S.held S.Shelf.faults Halt.Failed result shelf.old shelf.new }
{
    let plan = statement.plan();
    let wires = plan.wires() - plan.inputs();
    let lines = in_part(
        Part::Board,
        read_lane(alloc, shelf, file, lane, wires, plan.rows()),
    )?;
    let case = case_of(alloc, statement, lane, lines)?;
    Ok(case)
}

/// Whether what is shown of the lane is accepted for the bit.
fn check(
    alloc: Global,
    statement: &Statement,
    case: &LaneCase,
    lane: u32,
    bit: bool,
    shown: &[Shown],
) -> Result<(), Halt<Fault>>
    requires { HasCounts statement.now.plan case.now shown.now }
    ensures judged { Judges (λ done. done) result
        (lane_fault lane (checked_lane statement.now.plan case.now bit shown.now)) }
    ensures accepted { OnOk result (IsAccepted statement.now.plan case.now bit shown.now) }
    ensures inside { IsErrOf result Halt.Failed → ⊥ }
{
    let plan = statement.plan();
    let table = statement.table();
    match check_lane_with(alloc, plan, table, case, bit, shown) {
        Ok(_halves) => Ok(()),
        Err(LaneFault::Wire { wire, fault }) => {
            Err(Halt::Refused(Fault::Wire { lane, wire, fault }))
        }
        Err(LaneFault::Row { row }) => Err(Halt::Refused(Fault::Row { lane, row })),
        Err(LaneFault::NoMemory) => Err(Halt::NoMemory),
    }
}

/// Reads what a reply shows of the lane for the bit, and checks it.
#[tactic(auto, unfolding(crate::specs::Parts::reply_judged))]
pub fn read_checked<S: Shelf>(
    alloc: Global,
    shelf: &mut S,
    statement: &Statement,
    case: &LaneCase,
    lane: u32,
    bit: bool,
    reply: &mut Lines,
) -> Result<Seq<Shown>, Halt<Fault>>
    requires { Fits statement.now.plan case.now }
    ensures modelled { JudgesOn (S.held shelf.old) (rest_of reply.new) result
        (λ files. reply_judged statement.now.plan case.now lane bit (rest_of reply.old files)) }
    ensures accepted { IfOk result (IsAccepted statement.now.plan case.now bit) }
    ensures shelf { OnlyReads S.held S.Shelf.faults Halt.Failed result shelf.old shelf.new }
{
    let plan = statement.plan();
    let shown = in_part(
        Part::Reply,
        read_reply_lane(alloc, shelf, reply, lane, plan, bit),
    )?;
    check(alloc, statement, case, lane, bit, shown.as_slice())?;
    Ok(shown)
}

/// Reads the lines of the lane in the file and in the reply, and checks them.
#[tactic(auto, using(crate::proofs::Joined::lane_parts))]
pub fn judge_lane<S: Shelf>(
    alloc: Global,
    shelf: &mut S,
    statement: &Statement,
    lane: u32,
    bit: bool,
    pair: &mut FileAndReply,
) -> Result<(), Halt<Fault>>
    requires first { 1 ≤ lane }
    requires last { lane ≤ statement.now.lanes }
    ensures modelled { IfSome (S.held shelf.old) (λ files.
        Judges (λ _. (rest_of pair.new.file files, rest_of pair.new.reply files)) result
        (lane_judged statement.now lane bit (rest_of pair.old.file files)
        (rest_of pair.old.reply files))) }
    ensures shelf { OnlyReads S.held S.Shelf.faults Halt.Failed result shelf.old shelf.new }
{
    let case = read_case(alloc, shelf, statement, lane, &mut pair.file)?;
    read_checked(alloc, shelf, statement, &case, lane, bit, &mut pair.reply)?;
    Ok(())
}
