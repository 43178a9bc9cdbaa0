// The tapes of the lanes of a proof.
ghost use Rattle.std.specs.Prelude.{◌≡◌, ◌⊎◌, ◌+◌, ◌^◌, ◌<◌, ◌≤◌, All, None, Ok, Err, [], length, vec_capacity, IfErr, IfOk};
ghost use Rattle.vk_dice.specs.Stream.{word_at, words_ahead};
ghost use Rattle.vk_job.specs.Answers.{TapesAnswer, TapesOr, dry_refusal};
ghost use Rattle.vk_job.specs.Proofs.{HasTapesFor, drawn_in, dry_or, first_dry_in, given_in, source_with};
ghost use Rattle.vk_job.specs.Sources.{source_seen};
ghost use Rattle.vk_job.specs.declared.errors.JobErr.TheVariants.{NoMemory as MemoryRefused};

use crate::errors::JobErr;
use std::alloc::Global;
use vk_dice::ChaChaWords;
use vk_keeper::SealRow;
use vk_prover::{DrawErr, LaneTape, draw_wires, first_dry};
use vk_residue::NoMemory;
use vk_seq::Seq;
use vk_wire::WireTape;

/// What the tapes of the lanes come from.
#[derive(Clone, Copy)]
struct Source<'a> {
    id: &'a [u8; 16],
    rows: &'a [SealRow],
    lanes: u32,
    seed: &'a [u8; 32],
    further: u32,
}

/// The tapes of all lanes, the first's first. Each lane has so many wires further than the rows.
/// Errs where a lane has no tape, with the first such and its first wire that is dry, whatever
/// memory there is; and where each has one, for want of memory.
pub fn draw_tapes(
    alloc: Global,
    id: &[u8; 16],
    rows: &[SealRow],
    lanes: u32,
    seed: &[u8; 32],
    further: u32,
) -> Result<Seq<LaneTape>, JobErr>
    requires few { length rows.now + further < 2 ^ 32 }
    requires secrets { All (HasTapesFor lanes) rows.now }
    ensures { TapesAnswer result (source_with id.now rows.now lanes seed.now further) }
{
    let source = Source {
        id,
        rows,
        lanes,
        seed,
        further,
    };
    match draw_lanes(alloc, &source) {
        Ok(tapes) => Ok(tapes),
        Err(JobErr::DrySeed { lane, wire }) => Err(JobErr::DrySeed { lane, wire }),
        Err(JobErr::NoMemory) => {
            check_tapes(&source)?;
            Err(JobErr::NoMemory)
        }
    }
}

/// The same, but that want of memory tells nothing of the seed.
fn draw_lanes(alloc: Global, source: &Source) -> Result<Seq<LaneTape>, JobErr>
    requires few { length source.now.rows.now + source.now.further < 2 ^ 32 }
    requires secrets { All (HasTapesFor source.now.lanes) source.now.rows.now }
    ensures { TapesOr (Unit {0}) result (source_seen source.now) }
{
    let mut tapes = room(alloc, source.lanes)?;
    for before in 0..source.lanes {
        let tape = draw_lane(alloc, source, before + 1)?;
        tapes.push(tape).unwrap();
    }
    Ok(Seq::from_vec(tapes))
}

/// Room for so many tapes.
fn room(alloc: Global, count: u32) -> Result<Vec<LaneTape>, NoMemory>
    ensures none { IfOk result (λ tapes. tapes.items ≡ []) }
    ensures room { IfOk result (λ tapes. count ≤ vec_capacity tapes) }
{
    let tapes = Vec::with_capacity(alloc, count as usize)?;
    Ok(tapes)
}

/// The tape of the lane, counted from 1, or its first wire that is dry.
#[tactic(auto, unfolding(crate::specs::Proofs::drawn_in))]
fn draw_lane(alloc: Global, source: &Source, lane: u32) -> Result<LaneTape, JobErr>
    requires some { 1 ≤ lane }
    requires last { lane ≤ source.now.lanes }
    requires few { length source.now.rows.now + source.now.further < 2 ^ 32 }
    requires secrets { All (HasTapesFor source.now.lanes) source.now.rows.now }
    ensures tape { IfOk result (λ tape. drawn_in (source_seen source.now) lane ≡ Ok tape.wires) }
    ensures dry { IfErr result (λ refused. (refused ≡ MemoryRefused)
        ⊎ (dry_refusal (dry_or (drawn_in (source_seen source.now) lane) lane None)
        ≡ Err refused)) }
{
    let given = given_tapes(alloc, source.rows, lane)?;
    let mut words = words_of(source.id, source.seed, lane);
    match draw_wires(alloc, given.as_slice(), source.further, &mut words) {
        Ok(tape) => Ok(tape),
        Err(DrawErr::DrySeed { wire }) => Err(JobErr::DrySeed { lane, wire }),
        Err(DrawErr::NoMemory) => Err(JobErr::NoMemory),
    }
}

/// Errs where a lane has no tape: the first such, and its first wire that is dry. Takes no memory.
fn check_tapes(source: &Source) -> Result<(), JobErr>
    requires { length source.now.rows.now + source.now.further < 2 ^ 32 }
    ensures { result ≡ dry_refusal (first_dry_in (source_seen source.now)) }
{
    for before in 0..source.lanes {
        check_lane(source, before + 1)?;
    }
    Ok(())
}

/// Errs where the lane, counted from 1, has no tape, with its first wire that is dry.
fn check_lane(source: &Source, lane: u32) -> Result<(), JobErr>
    requires { length source.now.rows.now + source.now.further < 2 ^ 32 }
    ensures { result ≡ dry_refusal (dry_or (drawn_in (source_seen source.now) lane) lane None) }
{
    let inputs = source.rows.len() as u32;
    let mut words = words_of(source.id, source.seed, lane);
    match first_dry(inputs, source.further, &mut words) {
        Some(wire) => Err(JobErr::DrySeed { lane, wire }),
        None => Ok(()),
    }
}

/// The words of the lane's stream.
fn words_of(id: &[u8; 16], seed: &[u8; 32], lane: u32) -> ChaChaWords
    ensures { words_ahead result ≡ word_at seed.now id.now lane }
{
    ChaChaWords::of(seed, id, u64::from(lane))
}

/// The tapes of the inputs in the lane: those of the bidders' secrets.
fn given_tapes(alloc: Global, rows: &[SealRow], lane: u32) -> Result<Vec<WireTape>, NoMemory>
    requires some { 1 ≤ lane }
    requires last { All (λ row. lane ≤ length row.secret.lanes) rows.now }
    ensures { IfOk result (λ given. given.items ≡ given_in rows.now lane) }
{
    let mut given = Vec::with_capacity(alloc, rows.len())?;
    for row in rows {
        let tapes = row.secret.lanes.as_slice();
        given.push(tapes[lane as usize - 1].wire())?;
    }
    Ok(given)
}
