// Where the commitments of a wire stand.
ghost use Rattle.std.specs.Prelude.{◌≡◌, ◌+◌, ◌<◌, ◌%◌, ◌^◌};
ghost use Rattle.vk_wire.specs.Places.{place_of_wire, entry_place};

use vk_commit::Place;

/// The place of the first commitment of the wire, counted from 0. The wires of the inputs stand at
/// their seats with slot 0, and every other wire at seat 0 with the slot `2 * wire`. The second
/// commitment has the next slot.
pub fn wire_place(auction: &[u8; 16], lane: u16, seats: &[u16], wire: u32) -> Place
    requires { wire < 2 ^ 24 }
    ensures place { result ≡ place_of_wire auction.now lane seats.now wire }
    ensures even { result.slot % 2 ≡ 0 }
{
    match seats.get(wire as usize) {
        Some(seat) => Place {
            auction: *auction,
            seat: *seat,
            lane,
            slot: 0,
        },
        None => Place {
            auction: *auction,
            seat: 0,
            lane,
            slot: 2 * wire,
        },
    }
}

/// The place of the first or the second commitment of the wire whose first stands at `place`.
pub(crate) fn place_of_entry(place: &Place, second: bool) -> Place
    requires { place.now.slot % 2 ≡ 0 }
    ensures { result ≡ entry_place place.now second }
{
    let slot = place.slot;
    Place {
        auction: place.auction,
        seat: place.seat,
        lane: place.lane,
        slot: if second { slot + 1 } else { slot },
    }
}
