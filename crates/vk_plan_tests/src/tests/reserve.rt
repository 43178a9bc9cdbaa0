// Sales of three bids of 32 bits, under three reserves and without one, each shown by the plan of
// its board.
use super::numbers::{Expected, inputs_of, try_circuit};
use std::alloc::Global;
use std::panic::Expect;
use std::process::Abort;
use vk_residue::NoMemory;
use vk_vickrey::{BoardPlan, Sale, sale_of};

const BIDS: [u64; 3] = [3000000000, 4000000000, 3500000000];

fn sold(position: u32, price: u64) -> Sale {
    Sale::Sold { position, price }
}

/// Whether the second bid is sold under that reserve, at this price.
fn sells(reserve: u64, price: u64) -> bool {
    sale_of(&BIDS, reserve) == sold(2, price)
}

/// The plan of the bids has so many wires and rows, and the honest values hold for it.
fn try_sale(
    rt: &impl Abort,
    alloc: Global,
    version: u32,
    reserve: u64,
    wires: u32,
    rows: u32,
) -> Result<(), NoMemory> {
    let inputs = inputs_of(alloc, &BIDS, 32)?.expect(rt, "of the width");
    let sale = sale_of(&BIDS, reserve);
    let circuit = BoardPlan::of(version, 3, 32, reserve, sale).expect(rt, "within the limits");
    let expected = Expected {
        wires,
        rows,
        from: 0,
        values: &[],
    };
    try_circuit(rt, alloc, &circuit, inputs.as_slice(), &expected)
}

#[test]
fn sales_are_shown_at_the_reserve_above_it_and_unsold(rt: HostRuntime) {
    assert!(rt; sells(3600000000, 3600000000));
    assert!(rt; sells(3400000000, 3500000000));
    assert!(rt; sells(4000000000, 4000000000));
    assert!(rt; sale_of(&BIDS, 4000000001) == Sale::Unsold);
    assert!(rt; sells(0, 3500000000));
    assert!(rt; try_sale(&rt, rt.alloc(), 2, 3600000000, 262, 11).is_ok());
    assert!(rt; try_sale(&rt, rt.alloc(), 2, 3400000000, 296, 13).is_ok());
    assert!(rt; try_sale(&rt, rt.alloc(), 2, 4000000001, 198, 9).is_ok());
    assert!(rt; try_sale(&rt, rt.alloc(), 1, 0, 296, 13).is_ok());
}

/// Whether a board of bids of 32 bits may say this.
fn may_be(version: u32, seals: u32, reserve: u64, sale: Sale) -> bool {
    BoardPlan::of(version, seals, 32, reserve, sale).is_some()
}

#[test]
fn a_board_that_cannot_be_is_refused(rt: HostRuntime) {
    assert!(rt; !may_be(3, 3, 0, sold(2, 9)));
    assert!(rt; !may_be(1, 3, 9, sold(2, 9)));
    assert!(rt; !may_be(1, 3, 0, Sale::Unsold));
    assert!(rt; !may_be(2, 3, 0, Sale::Unsold));
    assert!(rt; !may_be(2, 3, 4294967296, Sale::Unsold));
    assert!(rt; !may_be(2, 3, 10, sold(2, 9)));
    assert!(rt; !may_be(2, 1, 9, sold(1, 10)));
    assert!(rt; may_be(2, 1, 9, sold(1, 9)));
}
