// The tape of a lane, and how it is drawn.
ghost use Rattle.std.specs.Prelude.{◌≡◌, ◌+◌, ◌-◌, ◌^◌, ◌<◌, ◌≤◌, All, length, vec_capacity, IfOk, IfSome, IsErrOf};
ghost use Rattle.vk_wire.specs.Values.{IsTape};
ghost use Rattle.vk_prover.specs.Drawn.{TapeAnswer, TapeWords, drawn_tape, dry_wire, after_wires};
ghost use Rattle.vk_prover.specs.Laws.{IsTapeOf};
ghost use Rattle.vk_prover.specs.declared.tape.DrawErr.TheVariants.{DrySeed as Dry, NoMemory as MemoryRefused};

use std::alloc::Global;
use vk_dice::{Draw, DryDraw, Words, draw_bit, draw_key, draw_onto, draw_residue};
use vk_plan::Plan;
use vk_residue::NoMemory;
use vk_seq::Seq;
use vk_wire::WireTape;

/// The secret choices behind one lane: one entry for each wire, the inputs' first.
#[derive(Debug, Drop)]
pub struct LaneTape {
    pub wires: Seq<WireTape>,
}

/// Why no tape was drawn.
#[derive(Clone, Copy, Debug, PartialEq, Eq)]
pub enum DrawErr {
    /// The residue of that wire, the first such, can't be drawn. Wires count from 0, the inputs'
    /// first.
    DrySeed { wire: u32 },
    /// Want of memory.
    NoMemory,
}

impl From<NoMemory> for DrawErr {
    ghost from_gives = { λ _ e. e ≡ MemoryRefused };

    fn from(_refused: NoMemory) -> DrawErr {
        DrawErr::NoMemory
    }
}

impl From<DryDraw> for DrawErr {
    ghost from_gives = { λ dry e. e ≡ Dry dry.number };

    fn from(dry: DryDraw) -> DrawErr {
        DrawErr::DrySeed { wire: dry.number }
    }
}

/// Draws the tape of a lane: the given tapes of the inputs, and then for each further wire in order
/// a residue, a bit and two keys, drawn from the words in this order. Where a wire is dry, no word
/// after those that were looked at for its residue is taken. All memory is taken before the first
/// word.
pub fn draw_tape<W: Words>(
    alloc: Global,
    plan: &Plan,
    given: &[WireTape],
    words: &mut W,
) -> Result<LaneTape, DrawErr>
    requires { length given.now ≡ plan.now.inputs }
    ensures drawn { TapeAnswer result
        (drawn_tape given.now (length plan.now.kinds - plan.now.inputs) (W.ahead words.old)) }
    ensures after { TapeWords result (W.ahead words.new)
        (after_wires (length plan.now.kinds - plan.now.inputs) (W.ahead words.old)) }
    ensures tape { IfOk result (λ tape. IsTapeOf plan.now tape.wires) }
    ensures memory { IsErrOf result DrawErr.NoMemory → W.ahead words.new ≡ W.ahead words.old }
{
    let tape = draw_wires(alloc, given, plan.wires() - plan.inputs(), words)?;
    Ok(tape)
}

/// The same by how many wires follow the inputs, where no plan is at hand.
pub fn draw_wires<W: Words>(
    alloc: Global,
    given: &[WireTape],
    further: u32,
    words: &mut W,
) -> Result<LaneTape, DrawErr>
    requires { length given.now + further < 2 ^ 32 }
    ensures drawn { TapeAnswer result (drawn_tape given.now further (W.ahead words.old)) }
    ensures after { TapeWords result (W.ahead words.new) (after_wires further (W.ahead words.old)) }
    ensures count { IfOk result (λ tape. length tape.wires ≡ length given.now + further) }
    ensures tapes { IfOk result (λ tape. All IsTape tape.wires) }
    ensures memory { IsErrOf result DrawErr.NoMemory → W.ahead words.new ≡ W.ahead words.old }
{
    let wires = copy_tapes(alloc, given, given.len() as u32 + further)?;
    let wires = draw_onto(wires, further, &WireDraw, words)?;
    Ok(LaneTape {
        wires: Seq::from_vec(wires),
    })
}

/// The first of so many wires, counted on from `before`, whose tape can't be drawn from the words.
/// None where each has one. Takes no memory.
pub fn first_dry<W: Words>(before: u32, count: u32, words: &mut W) -> Option<u32>
    requires { before + count < 2 ^ 32 }
    ensures { result ≡ dry_wire before count (W.ahead words.old) }
{
    for wire in before..before + count {
        let Some(_tape) = WireDraw.draw(words) else {
            return Some(wire);
        };
    }
    None
}

/// The draw of the tape of one wire. Where its residue can't be drawn, no further word is taken.
struct WireDraw;

impl Draw for WireDraw {
    ghost use Rattle.vk_prover.specs.Drawn.{wire_drawing};
    ghost use Rattle.vk_wire.specs.Values.{IsTape};

    type Item = WireTape;

    ghost drawing = { λ _. wire_drawing };

    ghost is_item = { λ _. IsTape };

    fn draw<W: Words>(&self, words: &mut W) -> Option<WireTape> {
        let mask = draw_residue(words).ok()?;
        let swap = draw_bit(words);
        let first_key = draw_key(words);
        let second_key = draw_key(words);
        Some(WireTape {
            mask,
            swap,
            first_key,
            second_key,
        })
    }
}

/// The tapes, with room for so many wires.
fn copy_tapes(alloc: Global, given: &[WireTape], count: u32) -> Result<Vec<WireTape>, NoMemory>
    ensures same { IfOk result (λ wires. wires.items ≡ given.now) }
    ensures tapes { IfOk result (λ wires. All IsTape wires.items) }
    ensures room { IfOk result (λ wires. count ≤ vec_capacity wires) }
{
    let mut wires = Vec::with_capacity(alloc, count as usize)?;
    for tape in given {
        wires.push(itself(*tape))?;
    }
    Ok(wires)
}

/// The tape. That it is one is what its type says.
fn itself(tape: WireTape) -> WireTape
    ensures same { result ≡ tape }
    ensures tape { IsTape result }
{
    tape
}
