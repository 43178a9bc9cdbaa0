// A sum file and the replies to two challenges, as an honest prover makes them.
ghost use Rattle.std.specs.Prelude.{◌≡◌, ◌≤◌, IfOk, length};
ghost use Rattle.vk_plan.specs.Plans.{Holds};
ghost use Rattle.vk_form_tests.specs.Sums.{SumTo};

use crate::{SumHead, SumPlan};
use std::alloc::Global;
use std::test::Fail;
use vk_board::{LaneLines, SealLines, lane_text, seal_lines_text};
use vk_dice::ChaChaWords;
use vk_io::{MemShelf, Shelf};
use vk_plan::{Circuit, Plan};
use vk_prover::{LaneTape, answer_lane, draw_tape, make_lane};
use vk_reply::{reply_head_text, reply_lane_text};
use vk_residue::{NoMemory, Residue};
use vk_seal::{Secret, make_seal};
use vk_seq::Seq;
use vk_wire::{Shown, WireTape};

const AUCTION: [u8; 16] = [0x5a; 16];

/// The numbers that are sealed, by the seats 1, 2 and 3.
pub const NUMBERS: [u64; 3] = [7, 0, 5];

/// What is published of a lane, and what is shown of it for either bit.
#[derive(Drop)]
struct Lane {
    lines: LaneLines,
    zero: Seq<Shown>,
    one: Seq<Shown>,
}

// What is written and tried is borrowed: no error drops it, and so it is proved fast.

/// Writes the files `file`, the challenges `01` and `10`, and `to 01` and `to 10`, the replies to
/// them; and `other`, a reply to the first by a prover who drew other keys.
pub fn put_files(alloc: Global, shelf: &mut MemShelf) -> Result<(), Fail> {
    shelf.put_file("01", b"vickrey-challenge 1\nbits 01\nend\n")?;
    shelf.put_file("10", b"vickrey-challenge 1\nbits 10\nend\n")?;
    let numbers = [
        residue(NUMBERS[0])?,
        residue(NUMBERS[1])?,
        residue(NUMBERS[2])?,
    ];
    let circuit = SumPlan::of(&numbers).ok_or("not three numbers below 8")?;
    let (plan, values) = plan_and_values(alloc, &circuit, &numbers)?;
    let secrets = put_front(alloc, shelf, circuit.total)?;
    put_lanes(alloc, shelf, &plan, values.as_slice(), secrets.as_slice())
}

fn residue(number: u64) -> Result<Residue, Fail> {
    Ok(Residue::new(number).ok_or("not below the modulus")?)
}

/// The circuit's plan, and the values that hold for it.
fn plan_and_values(
    alloc: Global,
    circuit: &SumPlan,
    numbers: &[Residue],
) -> Result<(Plan, Vec<Residue>), NoMemory>
    requires { SumTo circuit.now.total numbers.now }
    ensures { IfOk result (λ made. Holds made.0 made.1.items) }
{
    let plan = circuit.plan(alloc)?;
    let values = circuit.fill(alloc, numbers)?;
    Ok((plan, values))
}

/// Writes the head and the seals of the file, and gives the secrets.
fn put_front(alloc: Global, shelf: &mut MemShelf, total: u64) -> Result<Seq<Secret>, Fail> {
    let head = SumHead {
        auction: AUCTION,
        total,
    };
    put(shelf, "file", head.text(alloc))?;
    let mut secrets = Seq::new(alloc);
    for (seat, number) in [(1, 7), (2, 0), (3, 5)] {
        let secret = put_seal(alloc, shelf, seat, number)?;
        secrets.push(secret)?;
    }
    Ok(secrets)
}

/// Writes the seal of that seat, and gives its secret.
fn put_seal(alloc: Global, shelf: &mut MemShelf, seat: u16, number: u64) -> Result<Secret, Fail>
    requires some { 1 ≤ seat }
    requires byte { seat ≤ 255 }
{
    let mut words = ChaChaWords::of(&[seat as u8; 32], &AUCTION, 0);
    let (secret, seal) = make_seal(alloc, number, seat, &AUCTION, 3, 2, &mut words)?;
    let lines = SealLines {
        seat,
        coms: seal.lanes,
    };
    put(shelf, "file", seal_lines_text(alloc, &lines))?;
    Ok(secret)
}

/// Appends the text to the file of that name.
fn put(shelf: &mut MemShelf, name: &str, text: Result<Vec<u8>, NoMemory>) -> Result<(), Fail> {
    let text = text?;
    shelf.append(name, text.as_slice())?;
    Ok(())
}

/// Writes the lanes and the end of the file, and the replies.
fn put_lanes(
    alloc: Global,
    shelf: &mut MemShelf,
    plan: &Plan,
    values: &[Residue],
    secrets: &[Secret],
) -> Result<(), Fail>
    requires { Holds plan.now values.now }
{
    let first = lane_of(alloc, plan, values, secrets, 1, 8)?;
    let second = lane_of(alloc, plan, values, secrets, 2, 8)?;
    let other = lane_of(alloc, plan, values, secrets, 1, 9)?;
    put_made(alloc, shelf, &first, &second, &other)
}

/// The same of lanes that are made, the third by another prover.
fn put_made(
    alloc: Global,
    shelf: &mut MemShelf,
    first: &Lane,
    second: &Lane,
    other: &Lane,
) -> Result<(), Fail> {
    put(shelf, "file", lane_text(alloc, 1, &first.lines))?;
    put(shelf, "file", lane_text(alloc, 2, &second.lines))?;
    shelf.append("file", b"end\n")?;
    put_reply(alloc, shelf, "to 01", &first.zero, &second.one)?;
    put_reply(alloc, shelf, "to 10", &first.one, &second.zero)?;
    put_reply(alloc, shelf, "other", &other.zero, &second.one)?;
    Ok(())
}

/// Writes a reply that shows this of the two lanes.
fn put_reply(
    alloc: Global,
    shelf: &mut MemShelf,
    name: &str,
    first: &Seq<Shown>,
    second: &Seq<Shown>,
) -> Result<(), Fail> {
    put(shelf, name, reply_head_text(alloc, 2))?;
    put(shelf, name, reply_lane_text(alloc, 1, first.as_slice()))?;
    put(shelf, name, reply_lane_text(alloc, 2, second.as_slice()))?;
    shelf.append(name, b"end\n")?;
    Ok(())
}

/// The lane of that number, by a prover with this seed.
fn lane_of(
    alloc: Global,
    plan: &Plan,
    values: &[Residue],
    secrets: &[Secret],
    lane: u16,
    seed: u8,
) -> Result<Lane, Fail>
    requires { Holds plan.now values.now }
{
    let given = given_tapes(alloc, secrets, lane)?;
    if plan.inputs() as usize != given.len() {
        return Err("not a seal for each input".into());
    }
    let mut words = ChaChaWords::of(&[seed; 32], &AUCTION, u64::from(lane));
    let tape = draw_tape(alloc, plan, given.as_slice(), &mut words)?;
    let made = lane_with(alloc, plan, values, lane, &tape)?;
    Ok(made)
}

/// The lane of that number, of this tape.
fn lane_with(
    alloc: Global,
    plan: &Plan,
    values: &[Residue],
    lane: u16,
    tape: &LaneTape,
) -> Result<Lane, NoMemory>
    requires holds { Holds plan.now values.now }
    requires one_each { length tape.now.wires ≡ length plan.now.kinds }
{
    let lines = make_lane(alloc, plan, &AUCTION, lane, values, tape)?;
    let zero = answer_lane(alloc, plan, values, tape, false)?;
    let one = answer_lane(alloc, plan, values, tape, true)?;
    Ok(Lane { lines, zero, one })
}

/// The tapes of the seals in the lane of that number.
fn given_tapes(alloc: Global, secrets: &[Secret], lane: u16) -> Result<Vec<WireTape>, Fail> {
    let mut given = Vec::new(alloc);
    for secret in secrets {
        let tape = given_tape(secret, lane)?;
        given.push(tape)?;
    }
    Ok(given)
}

/// The tape of the seal in the lane of that number, from 1.
fn given_tape(secret: &Secret, lane: u16) -> Result<WireTape, Fail> {
    let index = usize::from(lane).checked_sub(1).ok_or("no lane 0")?;
    let tape = secret.lanes.as_slice().get(index).ok_or("no such lane")?;
    Ok(tape.wire())
}
