// What is seen of a lane.
ghost use Rattle.std.specs.Prelude.{◌≡◌, List, ℕ, length, IfOk};
ghost use Rattle.vk_plan.specs.Plans.{Holds};
ghost use Rattle.vk_prover.specs.Honest.{honest_lane, honest_reply};
ghost use Rattle.vk_views.specs.Views.{view_of};

use std::alloc::Global;
use vk_plan::Plan;
use vk_prover::{LaneTape, answer_lane, make_lane};
use vk_residue::{NoMemory, Residue};
use vk_seq::Seq;
use vk_wire::Shown;

/// What is seen of a lane beside digests: what is shown of each wire for a challenge bit, and what
/// is posted for each row.
#[derive(Debug, Drop)]
pub struct LaneView {
    pub shown: Seq<Shown>,
    pub posted: Seq<Residue>,
}

/// The id of the auction and the number of the lane of which the posted numbers are taken: they are
/// the same in all.
const ANY_AUCTION: [u8; 16] = [0; 16];

const ANY_LANE: u16 = 1;

/// The view of a lane of an honest prover: what `answer_lane` shows, and the numbers that
/// `make_lane` posts. The values are those of all wires, and hold for the plan.
pub fn view(
    alloc: Global,
    plan: &Plan,
    values: &[Residue],
    tape: &LaneTape,
    bit: bool,
) -> Result<LaneView, NoMemory>
    requires holds { Holds plan.now values.now }
    requires one_each { length tape.now.wires ≡ length plan.now.kinds }
    ensures view { IfOk result (λ view. view ≡ view_of plan.now values.now tape.now.wires bit) }
    ensures shown { IfOk result
        (λ view. view.shown ≡ honest_reply plan.now.kinds values.now tape.now.wires bit) }
    ensures posted { IfOk result (λ view. (auction : List ℕ) (lane : ℕ)
        → view.posted ≡ (honest_lane plan.now auction lane values.now tape.now.wires).posted) }
{
    let shown = answer_lane(alloc, plan, values, tape, bit)?;
    let lines = make_lane(alloc, plan, &ANY_AUCTION, ANY_LANE, values, tape)?;
    Ok(LaneView {
        shown,
        posted: lines.posted,
    })
}
