// The masks and the faults of a pair of weight 8, and where inputs stand. Wires from outside are
// replayed by the program `vectors`.
use super::numbers::{opening, residue};
use std::test::Fail;
use vk_commit::{Place, commit};
use vk_plan::WireKind;
use vk_wire::{Shown, WireCom, WireFault, read, wire_place};

// A pair of weight 8 at seat 0, by its two entries.
const EIGHT: WireKind = WireKind::Pair(3);

const PLACE: Place = Place {
    auction: [7; 16],
    seat: 0,
    lane: 1,
    slot: 4,
};

const NEXT: Place = Place {
    auction: [7; 16],
    seat: 0,
    lane: 1,
    slot: 5,
};

fn whole(first: u64, second: u64) -> Result<Shown, Fail> {
    Ok(Shown::Whole(opening([1; 32], first)?, opening([2; 32], second)?))
}

fn digests(first: u64, second: u64) -> Result<WireCom, Fail> {
    Ok(WireCom {
        first: commit(&PLACE, &opening([1; 32], first)?),
        second: commit(&NEXT, &opening([2; 32], second)?),
    })
}

#[test]
fn pairs_of_weight_8_read_their_masks(rt: HostRuntime) -> Result<(), Fail> {
    for (first, second, want) in [
        (2305843009213693946, 3, Ok(residue(5)?)),
        (3, 2305843009213693946, Ok(residue(5)?)),
        (4, 4, Err(WireFault::NotASet)),
    ] {
        let read = read(
            EIGHT,
            &PLACE,
            &digests(first, second)?,
            &whole(first, second)?,
            false,
        );
        assert_eq!(rt; read, want, "{first} and {second}");
    }
    Ok(())
}

#[test]
fn faults_come_in_their_order(rt: HostRuntime) -> Result<(), Fail> {
    let half = Shown::Half(opening([1; 32], 4)?);
    let digests = digests(4, 4)?;
    for (shown, want) in [
        (half, WireFault::Form),
        (whole(5, 5)?, WireFault::Digest { second: false }),
        (whole(4, 5)?, WireFault::Digest { second: true }),
        (whole(4, 4)?, WireFault::NotASet),
    ] {
        let read = read(EIGHT, &PLACE, &digests, &shown, false);
        assert_eq!(rt; read, Err(want));
    }
    Ok(())
}

#[test]
fn inputs_stand_at_their_seats(rt: HostRuntime) {
    for (wire, seat, slot) in [(1, 9, 0), (2, 0, 4)] {
        let place = wire_place(&[7; 16], 1, &[7, 9], wire);
        assert_eq!(rt; (place.seat, place.slot), (seat, slot), "wire {wire}");
    }
}
