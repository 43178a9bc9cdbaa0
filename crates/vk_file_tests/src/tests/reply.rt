// A challenge, and what is shown of a lane with two split wires and a pair, as another
// implementation writes them. Spoiled ones are replayed by the program `conformance`.
ghost use Rattle.std.specs.Prelude.{◌≡◌, ◌∷◌, [], IfOk};
ghost use Rattle.vk_plan.specs.declared.wire.WireKind.TheVariants.{Pair, Split};

use super::files::{Given, reply_0, reply_1, reply_1_end, second_wire};
use std::alloc::Global;
use std::panic::Expect;
use std::process::Abort;
use vk_commit::Opening;
use vk_lines::ReadErr;
use vk_plan::{Plan, WireKind};
use vk_reply::{
    Challenge, challenge_text, read_challenge, read_reply_head, read_reply_lane, reply_head_text,
    reply_lane_text,
};
use vk_residue::{NoMemory, Residue};
use vk_seq::Seq;
use vk_wire::Shown;

#[test]
fn a_challenge_is_read_and_written_back(rt: HostRuntime) {
    let bytes = b"vickrey-challenge 1\nbits 01\nend\n".as_slice();
    assert!(rt; try_challenge(&rt, rt.alloc(), bytes).is_ok());
}

fn try_challenge(rt: &impl Abort, alloc: Global, bytes: &[u8]) -> Result<(), ReadErr> {
    let mut shelf = Given::of(bytes);
    let mut lines = shelf.lines(rt, alloc);
    let challenge = read_challenge(alloc, &mut shelf, &mut lines)?;
    assert!(rt; challenge.bits.as_slice() == [false, true].as_slice());
    assert!(rt; has_text(alloc, &challenge, bytes));
    Ok(())
}

/// Whether this is the challenge's file.
pub fn has_text(alloc: Global, challenge: &Challenge, expected: &[u8]) -> bool {
    match challenge_text(alloc, challenge) {
        Ok(text) => text.as_slice() == expected,
        Err(_) => false,
    }
}

fn opening(key: u8, number: u64) -> Opening {
    Opening {
        key: [key; 32],
        value: Residue::new(number).unwrap_or(Residue::ZERO),
    }
}

/// Two inputs, and a pair that is 0 or 1.
fn plan_of_a_pair(alloc: Global) -> Result<Plan, NoMemory>
    ensures { IfOk result (λ plan. plan.kinds ≡ Split ∷ Split ∷ Pair 0 ∷ []) }
{
    let mut plan = Plan::new(alloc, 2)?;
    plan.append(&[WireKind::Pair(0)], None)?;
    Ok(plan)
}

/// A reply of one lane with this plan is read, shows this, and is written back.
fn try_copied(
    rt: &impl Abort,
    alloc: Global,
    bytes: &[u8],
    plan: &Plan,
    bit: bool,
    expected: &[Shown; 3],
) -> Result<(), ReadErr>
    requires { plan.now.kinds ≡ Split ∷ Split ∷ Pair 0 ∷ [] }
{
    let (lanes, shown) = lane_in(rt, alloc, bytes, plan, bit)?;
    assert!(rt; shown.as_slice() == expected.as_slice());
    assert!(rt; is_written(alloc, lanes, shown.as_slice(), bytes));
    Ok(())
}

/// How many lanes the reply says to have, and what is shown of its one lane.
fn lane_in(
    rt: &impl Abort,
    alloc: Global,
    bytes: &[u8],
    plan: &Plan,
    bit: bool,
) -> Result<(u32, Seq<Shown>), ReadErr>
    requires { plan.now.kinds ≡ Split ∷ Split ∷ Pair 0 ∷ [] }
{
    let mut shelf = Given::of(bytes);
    let mut lines = shelf.lines(rt, alloc);
    let lanes = read_reply_head(&mut shelf, &mut lines)?;
    let shown = read_reply_lane(alloc, &mut shelf, &mut lines, 1, plan, bit)?;
    lines.read_end(&mut shelf)?;
    Ok((lanes, shown))
}

fn text_of(alloc: Global, lanes: u32, shown: &[Shown]) -> Result<Vec<u8>, NoMemory> {
    let mut text = reply_head_text(alloc, lanes)?;
    let lane = reply_lane_text(alloc, 1, shown)?;
    text.extend_from_slice(lane.as_slice())?;
    text.extend_from_slice(b"end\n")?;
    Ok(text)
}

/// Whether this is the file of the reply.
fn is_written(alloc: Global, lanes: u32, shown: &[Shown], expected: &[u8]) -> bool {
    match text_of(alloc, lanes, shown) {
        Ok(text) => text.as_slice() == expected,
        Err(_) => false,
    }
}

#[test]
fn replies_to_both_bits_are_read_and_written_back(rt: HostRuntime) {
    assert!(rt; try_zero(&rt, rt.alloc()).is_ok());
    assert!(rt; try_one(&rt, rt.alloc()).is_ok());
}

fn try_zero(rt: &impl Abort, alloc: Global) -> Result<(), ReadErr> {
    let plan = plan_of_a_pair(alloc).expect(rt, "a plan");
    let zero = [
        Shown::Half(opening(0x11, 3)),
        Shown::Half(opening(0x33, 10)),
        Shown::Whole(
            opening(0x55, 2305843009213693947),
            opening(0x66, 2305843009213693948),
        ),
    ];
    try_copied(rt, alloc, reply_0(), &plan, false, &zero)
}

fn try_one(rt: &impl Abort, alloc: Global) -> Result<(), ReadErr> {
    let plan = plan_of_a_pair(alloc).expect(rt, "a plan");
    let one = [
        Shown::Half(opening(0x22, 2305843009213693948)),
        Shown::Half(opening(0x44, 2305843009213693941)),
        Shown::Spent {
            second: false,
            opening: opening(0x55, 2305843009213693947),
        },
    ];
    let joined = joined(alloc, reply_1(), second_wire(), reply_1_end());
    let to_one = joined.expect(rt, "a reply");
    try_copied(rt, alloc, to_one.as_slice(), &plan, true, &one)
}

/// Three pieces, one after another.
fn joined(alloc: Global, first: &[u8], second: &[u8], third: &[u8]) -> Result<Vec<u8>, NoMemory> {
    let mut bytes = Vec::from_slice(alloc, first)?;
    bytes.extend_from_slice(second)?;
    bytes.extend_from_slice(third)?;
    Ok(bytes)
}
