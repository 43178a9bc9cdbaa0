// The halves of the wires of a lane. What four wires open is hashed side by side, and then each is
// read.
ghost use Rattle.std.specs.Prelude.{◌≡◌, ◌⊎◌, ◌+◌, ◌<◌, ◌≤◌, ◌%◌, ◌++◌, ◌^◌, ℕ, [], ◌∷◌, length, min, slice_index_or, IfOk, IfErr, OnOk, Ok, Err};
ghost use Rattle.vk_plan.specs.Plans.{IsPlan};
ghost use Rattle.vk_row.specs.Lanes.{HasCounts, place_in};
ghost use Rattle.vk_row.specs.LaneTests.{AreHashed, at_wire, halves_after, halves_from};
ghost use Rattle.vk_row.specs.declared.case.LaneFault.TheVariants.{NoMemory as OutOfMemory};

use crate::case::{LaneCase, LaneFault};
use std::alloc::Global;
use vk_commit::Place;
use vk_plan::Plan;
use vk_residue::{NoMemory, Residue};
use vk_wire::{Opened, Shown, WireFault, hash_four, read_opened, wire_place};

/// What is shown of a lane for a bit.
#[derive(Clone, Copy)]
pub(crate) struct ShownLane<'a> {
    pub(crate) case: &'a LaneCase,
    pub(crate) bit: bool,
    pub(crate) shown: &'a [Shown],
}

/// The halves of all wires, or the first wire that reads nothing.
#[tactic(auto, unfolding(crate::specs::LaneTests::halves_from))]
pub(crate) fn read_wires(
    alloc: Global,
    plan: &Plan,
    lane: &ShownLane,
) -> Result<Vec<Residue>, LaneFault>
    requires { HasCounts plan.now lane.now.case.now lane.now.shown.now }
    ensures plan { IsPlan plan.now }
    ensures one_each { IfOk result (λ halves. length halves.items ≡ length plan.now.kinds) }
    ensures halves { IfOk result
        (λ halves. halves_from lane.now.case.now lane.now.bit [] plan.now.kinds
        lane.now.case.now.coms lane.now.shown.now
        ≡ Ok halves.items) }
    ensures fault { IfErr result
        (λ fault. (fault ≡ OutOfMemory)
        ⊎ (halves_from lane.now.case.now lane.now.bit [] plan.now.kinds lane.now.case.now.coms
        lane.now.shown.now ≡ Err fault)) }
{
    let wires = plan.wires();
    let mut halves = room_for(alloc, wires)?;
    for _group in 0..(wires + 3) / 4 {
        read_group(plan, lane, &mut halves)?;
    }
    Ok(halves)
}

/// No halves yet, with room for so many.
fn room_for(alloc: Global, wires: u32) -> Result<Vec<Residue>, NoMemory>
    ensures { IfOk result (λ halves. halves.items ≡ []) }
{
    let halves = Vec::with_capacity(alloc, wires as usize)?;
    Ok(halves)
}

/// Reads the wires after those that have halves, four or as many as are left, in order.
fn read_group(plan: &Plan, lane: &ShownLane, halves: &mut Vec<Residue>) -> Result<(), LaneFault>
    requires counts { HasCounts plan.now lane.now.case.now lane.now.shown.now }
    requires more { length halves.old.items < length plan.now.kinds }
    ensures count { OnOk result
        (length halves.new.items ≡ min (length halves.old.items + 4) (length plan.now.kinds)) }
    ensures read { OnOk result
        (halves_after plan.now lane.now.case.now lane.now.bit lane.now.shown.now halves.new.items
        ≡ halves_after plan.now lane.now.case.now lane.now.bit lane.now.shown.now
        halves.old.items) }
    ensures fault { IfErr result (λ fault. (fault ≡ OutOfMemory)
        ⊎ (halves_after plan.now lane.now.case.now lane.now.bit lane.now.shown.now halves.old.items
        ≡ Err fault)) }
{
    let wires = plan.wires();
    let from = halves.len();
    let shown = lane.shown;
    let opened = hash_group(lane, from);
    for wire in from as u32..wires.min(from as u32 + 4) {
        let at = wire as usize;
        let digests = &lane.case.coms.as_slice()[at];
        let made = &opened[at - from];
        let read = read_opened(plan.kind(wire), digests, &shown[at], lane.bit, made);
        let half = at_wire(wire, read)?;
        keep(halves, half)?;
    }
    Ok(())
}

/// A fault is that of the wire.
fn at_wire(wire: u32, read: Result<Residue, WireFault>) -> Result<Residue, LaneFault>
    ensures { result ≡ at_wire wire read }
{
    match read {
        Ok(half) => Ok(half),
        Err(fault) => Err(LaneFault::Wire { wire, fault }),
    }
}

fn keep(halves: &mut Vec<Residue>, half: Residue) -> Result<(), NoMemory>
    ensures { OnOk result (halves.new.items ≡ halves.old.items ++ half ∷ []) }
{
    halves.push(half)?;
    Ok(())
}

/// The digests of what four wires from that one on open. Past the last wire they are again those of
/// it.
fn hash_group(lane: &ShownLane, from: usize) -> [Opened; 4]
    requires from { from < length lane.now.shown.now }
    requires few { length lane.now.shown.now ≤ 2 ^ 24 }
    ensures { AreHashed lane.now.case.now lane.now.bit lane.now.shown.now from result }
{
    let case = lane.case;
    let shown = lane.shown;
    let last = shown.len() - 1;
    let second = last.min(from + 1);
    let third = last.min(from + 2);
    let fourth = last.min(from + 3);
    let places = [
        place_of(case, from),
        place_of(case, second),
        place_of(case, third),
        place_of(case, fourth),
    ];
    hash_four(
        &places,
        &[shown[from], shown[second], shown[third], shown[fourth]],
        lane.bit,
    )
}

/// Where the first commitment of the wire stands.
fn place_of(case: &LaneCase, wire: usize) -> Place
    requires { wire < 2 ^ 24 }
    ensures place { result ≡ place_in case.now wire }
    ensures even { result.slot % 2 ≡ 0 }
{
    wire_place(&case.auction, case.lane, case.seats.as_slice(), wire as u32)
}
