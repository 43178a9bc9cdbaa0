// The extraction of one lane.
ghost use Rattle.std.specs.Prelude.{◌≡◌, IfOk, IfErr, IfSome, OnOk, Err, None, false, true};
ghost use Rattle.vk_plan.specs.Plans.{Holds};
ghost use Rattle.vk_row.specs.Lanes.{IsAccepted};
ghost use Rattle.vk_extractor.specs.Sums.{AreSums};
ghost use Rattle.vk_extractor.specs.Clash.{clash_of_lane};
ghost use Rattle.vk_extractor.specs.declared.lane.LaneErr.TheVariants.{Clash, NoMemory};
ghost use Rattle.vk_extractor.specs.Refused.{IsRefusalOf, clash_in};

use crate::clash::first_clash;
use crate::values::values_of;
use std::alloc::Global;
use vk_commit::TwoOpenings;
use vk_plan::Plan;
use vk_residue::{NoMemory as OutOfMemory, Residue};
use vk_row::LaneCase;
use vk_wire::Shown;

/// Why a lane gives no values.
#[derive(Clone, Copy, Debug)]
pub enum LaneErr {
    /// An entry was opened with two values, for bit 0 and for bit 1.
    Clash(TwoOpenings),
    NoMemory,
}

impl LaneErr {
    /// The two openings of a clash.
    pub fn clash(self) -> Option<TwoOpenings>
        ensures { result ≡ clash_in self }
    {
        match self {
            LaneErr::Clash(two) => Some(two),
            LaneErr::NoMemory => None,
        }
    }
}

impl From<OutOfMemory> for LaneErr {
    ghost from_gives = { λ _ fault. fault ≡ NoMemory };

    fn from(_refused: OutOfMemory) -> LaneErr {
        LaneErr::NoMemory
    }
}

/// The values of the wires of a lane, from what was accepted for bit 0 and what was accepted for
/// bit 1: for each wire the sum of its two halves. They hold for the plan.
///
/// Where an entry of a pair was spent with another value than it was opened whole with, the answer
/// is the first such entry's two openings, that of bit 0 first. It takes no memory.
pub fn extract_lane(
    alloc: Global,
    plan: &Plan,
    case: &LaneCase,
    zero: &[Shown],
    one: &[Shown],
) -> Result<Vec<Residue>, LaneErr>
    requires zero { IsAccepted plan.now case.now false zero.now }
    requires one { IsAccepted plan.now case.now true one.now }
    ensures sums { IfOk result (λ values. AreSums plan.now case.now zero.now one.now values.items) }
    ensures holds { IfOk result (λ values. Holds plan.now values.items) }
    ensures agree { OnOk result (clash_of_lane case.now zero.now one.now ≡ None) }
    ensures clash { IfSome (clash_of_lane case.now zero.now one.now)
        (λ two. result ≡ Err (Clash two)) }
    ensures refused { IfErr result (λ refused. IsRefusalOf refused case.now zero.now one.now) }
{
    match first_clash(plan, case, zero, one) {
        Some(two) => Err(LaneErr::Clash(two)),
        None => {
            let values = values_of(alloc, plan, zero, one)?;
            Ok(values)
        }
    }
}
