// The first entry that the two challenges open to different values.
ghost use Rattle.std.specs.Prelude.{◌≡◌, ◌<◌, ◌≤◌, ◌^◌, false, true, length, slice_index_or};
ghost use Rattle.vk_row.specs.Lanes.{IsAccepted, no_digests, nothing_shown};
ghost use Rattle.vk_extractor.specs.Clash.{clash_at, clash_of_lane};

use vk_commit::{Place, TwoOpenings};
use vk_plan::Plan;
use vk_row::LaneCase;
use vk_wire::{Shown, wire_place};

/// The two openings of the first entry that is spent with another value than it is opened whole
/// with.
#[tactic(auto, using(crate::proofs::Steps::clash_from_step), unfolding(crate::specs::Clash::clash_from))]
pub(crate) fn first_clash(
    plan: &Plan,
    case: &LaneCase,
    zero: &[Shown],
    one: &[Shown],
) -> Option<TwoOpenings>
    requires zero { IsAccepted plan.now case.now false zero.now }
    requires one { IsAccepted plan.now case.now true one.now }
    ensures { result ≡ clash_of_lane case.now zero.now one.now }
{
    for wire in 0..plan.wires() {
        if let Some(two) = clash_of_wire(plan, case, zero, one, wire) {
            return Some(two);
        }
    }
    None
}

/// The two openings of the wire's spent entry, if they have different values.
fn clash_of_wire(
    plan: &Plan,
    case: &LaneCase,
    zero: &[Shown],
    one: &[Shown],
    wire: u32,
) -> Option<TwoOpenings>
    requires zero { IsAccepted plan.now case.now false zero.now }
    requires one { IsAccepted plan.now case.now true one.now }
    requires wire { wire < length plan.now.kinds }
    requires few { length plan.now.kinds ≤ 2 ^ 24 }
    ensures { result ≡ clash_at case.now wire (slice_index_or case.now.coms wire no_digests)
        (slice_index_or zero.now wire nothing_shown) (slice_index_or one.now wire nothing_shown) }
{
    let at = wire as usize;
    let (
        Shown::Whole(first, second),
        Shown::Spent {
            second: of_second,
            opening,
        },
    ) = (&zero[at], &one[at])
    else {
        return None;
    };
    let place = wire_place(&case.auction, case.lane, case.seats.as_slice(), wire);
    let digests = case.coms.as_slice()[at];
    if *of_second {
        let next = Place {
            slot: place.slot + 1,
            ..place
        };
        TwoOpenings::of(next, digests.second, *second, *opening)
    } else {
        TwoOpenings::of(place, digests.first, *first, *opening)
    }
}
