// What several of these tests make: residues, openings and bids as inputs; a plan of two wires and a
// lane of it; the halves of accepted lanes; and the commitments of a bid of 5 by seat 7 and of a copy
// of it, as an independent implementation made them.
ghost use Rattle.std.specs.Prelude.{◌≡◌, ◌<◌, ◌≤◌, ◌^◌, All, IfOk, IfSome, IsTrue, length};
ghost use Rattle.vk_plan.specs.Forms.{NamesBelow};
ghost use Rattle.vk_plan.specs.Plans.{HasWeight};
ghost use Rattle.vk_row.specs.Lanes.{HasCounts};

use std::alloc::Global;
use std::panic::Expect;
use std::process::Abort;
use vk_commit::Opening;
use vk_plan::{Form, Plan, Term, WireKind};
use vk_residue::{NoMemory, Residue};
use vk_row::{LaneCase, check_lane};
use vk_seq::Seq;
use vk_wire::{Shown, WireCom};

pub const AUCTION: [u8; 16] = [0, 1, 2, 3, 4, 5, 6, 7, 8, 9, 10, 11, 12, 13, 14, 15];

pub const MINUS_ONE: u64 = 2305843009213693950;

pub const BID: WireCom = WireCom {
    first: [
        0x02, 0x3d, 0xd1, 0xcc, 0x99, 0x17, 0x7a, 0xec, 0x8e, 0x6b, 0x75, 0xb8, 0x47, 0x22, 0x7f,
        0xf4, 0xa8, 0xdd, 0x6e, 0x23, 0x28, 0x31, 0x0f, 0x0f, 0xfa, 0x91, 0xf2, 0xd6, 0x0a, 0xec,
        0xd4, 0x26,
    ],
    second: [
        0x7d, 0x27, 0xf5, 0xe5, 0xfa, 0x17, 0x02, 0x02, 0x34, 0xfa, 0xfc, 0x9b, 0x72, 0x35, 0xc8,
        0x4f, 0x4b, 0x92, 0xbb, 0x9a, 0xbc, 0x75, 0x4d, 0x2a, 0x12, 0xe1, 0x8a, 0x0b, 0x24, 0xec,
        0x8e, 0x75,
    ],
};

pub const COPY: WireCom = WireCom {
    first: [
        0x3e, 0x08, 0x1a, 0x82, 0x00, 0x47, 0xb9, 0x42, 0xfb, 0x53, 0xd6, 0x4c, 0xc4, 0x8e, 0x73,
        0x07, 0x2c, 0x8b, 0xab, 0x60, 0x33, 0x81, 0x22, 0xa8, 0xb6, 0xcc, 0x7d, 0x25, 0x74, 0x47,
        0x82, 0x94,
    ],
    second: [
        0xc5, 0x91, 0x4c, 0x57, 0x5c, 0xec, 0xb2, 0x1a, 0x7d, 0x48, 0x84, 0xfb, 0xba, 0x3c, 0xb9,
        0x14, 0x24, 0x52, 0x9f, 0x83, 0x68, 0x90, 0xe5, 0xb3, 0xc8, 0x35, 0x8d, 0x4e, 0x3c, 0xc6,
        0xa5, 0x3c,
    ],
};

/// The residue of a number, 0 where it is not below the modulus.
pub fn residue(number: u64) -> Residue
    ensures { number < 2305843009213693951 → result ≡ number }
{
    Residue::new(number).unwrap_or(Residue::ZERO)
}

pub fn opening(key: [u8; 32], number: u64) -> Opening {
    Opening {
        key,
        value: residue(number),
    }
}

pub fn half(key: u8, number: u64) -> Shown {
    Shown::Half(opening([key; 32], number))
}

/// The bids as residues. None where one is not of the width.
pub fn inputs_of(alloc: Global, bids: &[u64], width: u32) -> Result<Option<Vec<Residue>>, NoMemory>
    requires { width ≤ 40 }
    ensures same { IfOk result (λ made. IfSome made (λ inputs. inputs.items ≡ bids.now)) }
    ensures within { IfOk result
        (λ made. IfSome made (λ inputs. All (λ bid. bid < 2 ^ width) bids.now)) }
{
    let mut inputs = Vec::new(alloc);
    for bid in bids {
        if *bid >= Residue::pow2(width).get() {
            return Ok(None);
        }
        inputs.push(Residue::new(*bid).unwrap_or(Residue::ZERO))?;
    }
    Ok(Some(inputs))
}

/// The first of two wires less the second, plus a constant.
pub fn difference(alloc: Global, constant: u64) -> Result<Form, NoMemory>
    ensures { IfOk result (λ form. NamesBelow 2 form.terms) }
{
    let first = Term {
        wire: 0,
        factor: Residue::ONE,
    };
    let second = Term {
        wire: 1,
        factor: residue(MINUS_ONE),
    };
    let terms = Vec::from_array(alloc, [first, second])?;
    Ok(Form {
        terms: Seq::from_vec(terms),
        constant: residue(constant),
    })
}

/// One input, a wire of the kind, and the row that the two have one value.
pub fn plan_of_two(alloc: Global, kind: WireKind) -> Result<Plan, NoMemory>
    requires { HasWeight kind }
    ensures inputs { IfOk result (λ plan. plan.inputs ≡ 1) }
    ensures wires { IfOk result (λ plan. length plan.kinds ≡ 2) }
    ensures rows { IfOk result (λ plan. length plan.rows ≡ 1) }
{
    let row = difference(alloc, 0)?;
    let mut plan = Plan::new(alloc, 1)?;
    plan.append(&[kind], Some(row))?;
    Ok(plan)
}

/// A seat of a lane of one input.
pub fn seat_7(alloc: Global) -> Result<Seq<u16>, NoMemory>
    ensures { IfOk result (λ seats. length seats ≡ 1) }
{
    let seats = Vec::from_array(alloc, [7])?;
    Ok(Seq::from_vec(seats))
}

/// The number of one row.
pub fn posted_number(alloc: Global, number: u64) -> Result<Seq<Residue>, NoMemory>
    ensures { IfOk result (λ posted. length posted ≡ 1) }
{
    let posted = Vec::from_array(alloc, [residue(number)])?;
    Ok(Seq::from_vec(posted))
}

/// Lane 1 of such a plan, with these commitments and this number.
pub fn case_of_two(
    alloc: Global,
    first: WireCom,
    second: WireCom,
    number: u64,
) -> Result<LaneCase, NoMemory>
    ensures seats { IfOk result (λ case. length case.seats ≡ 1) }
    ensures wires { IfOk result (λ case. length case.coms ≡ 2) }
    ensures rows { IfOk result (λ case. length case.posted ≡ 1) }
{
    let seats = seat_7(alloc)?;
    let coms = Vec::from_array(alloc, [first, second])?;
    let posted = posted_number(alloc, number)?;
    Ok(LaneCase {
        auction: AUCTION,
        lane: 1,
        seats,
        coms: Seq::from_vec(coms),
        posted,
    })
}

/// The halves of a lane that is accepted.
pub fn accepted_halves(
    rt: &impl Abort,
    alloc: Global,
    plan: &Plan,
    case: &LaneCase,
    bit: bool,
    shown: &[Shown],
) -> Vec<Residue> {
    assert!(rt; has_counts(plan, case, shown), "not one of each");
    check_lane(alloc, plan, case, bit, shown).expect(rt, "accepted")
}

/// Whether there is one of each for the plan.
pub fn has_counts(plan: &Plan, case: &LaneCase, shown: &[Shown]) -> bool
    ensures { IsTrue result → HasCounts plan.now case.now shown.now }
{
    case.seats.as_slice().len() == plan.inputs() as usize
        && case.coms.as_slice().len() == plan.wires() as usize
        && case.posted.as_slice().len() == plan.rows() as usize
        && shown.len() == plan.wires() as usize
}
