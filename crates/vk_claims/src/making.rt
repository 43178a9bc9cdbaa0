// The honest proof of a sample's claim.
ghost use Rattle.std.specs.Prelude.{◌≡◌, All, length, IfOk, IfSome, IsErrOf, IsSomeAnd};
ghost use Rattle.vk_residue.specs.Residue.{IsResidue};
ghost use Rattle.vk_judge.specs.Common.{Gives, MemoryWasWanting};
ghost use Rattle.vk_report.specs.Samples.{IsCaseOf};
ghost use Rattle.vk_claims.specs.Circuits.{plan_of};
ghost use Rattle.vk_sample_parts.specs.Auctions.{dry_of};
ghost use Rattle.vk_claims.specs.Claims.{IsReady, MayPublish, proof_by, proof_in, sizes_of, values_of};

use std::alloc::Global;
use vk_job::{Prepared, draw_tapes};
use vk_keeper::SealRow;
use vk_matching::MatchingPlan;
use vk_plan::{Circuit, Plan, RowTable};
use vk_report::SampleCase;
use vk_residue::{NoMemory, Residue};
use vk_sample_parts::{SampleErr, seal_rows};
use vk_seq::Seq;
use vk_uniform::UniformPlan;
use vk_words::Kind;

/// What the honest proof of a case is made from besides it: the seals with their secrets, and what
/// serves for every lane.
#[derive(Drop)]
pub struct Made {
    pub rows: Seq<SealRow>,
    pub prepared: Prepared,
}

/// A circuit's plan, and the values of all its wires.
#[derive(Drop)]
struct Filled {
    plan: Plan,
    values: Seq<Residue>,
}

/// What the proof of the case is made from, where these numbers are published.
#[tactic(auto, unfolding(crate::specs::Claims::proof_by), using(vk_judge::specs::Wanting::memory_was_wanting))]
pub fn make_claim(
    alloc: Global,
    kind: Kind,
    case: &SampleCase,
    numbers: &[u64],
) -> Result<Made, SampleErr>
    requires right { IsCaseOf (sizes_of kind) case.now }
    requires published { MayPublish kind case.now numbers.now }
    ensures proof { Gives dry_of (proof_in case.now) result (proof_by kind case.now numbers.now) }
    ensures prepared { IfOk result (λ made. IsReady case.now made) }
    ensures wanting { IsErrOf result SampleErr.NoMemory → MemoryWasWanting }
{
    let rows = seal_rows(alloc, case)?;
    let filled = filled_by(alloc, kind, case, numbers)?;
    let tapes = draw_tapes(
        alloc,
        &case.auction,
        rows.as_slice(),
        case.lanes,
        &case.seed,
        filled.plan.wires() - filled.plan.inputs(),
    )?;
    let table = RowTable::of(alloc, &filled.plan)?;
    let prepared = Prepared {
        plan: filled.plan,
        table,
        values: filled.values,
        tapes,
    };
    Ok(Made { rows, prepared })
}

/// The plan of these numbers, filled with the case's values.
fn filled_by(
    alloc: Global,
    kind: Kind,
    case: &SampleCase,
    numbers: &[u64],
) -> Result<Filled, NoMemory>
    requires published { MayPublish kind case.now numbers.now }
    requires right { IsCaseOf (sizes_of kind) case.now }
    ensures plan { IfOk result
        (λ filled. filled.plan ≡ plan_of kind (length case.now.seats) numbers.now) }
    ensures values { IfOk result
        (λ filled. filled.values
        ≡ values_of kind (length case.now.seats) numbers.now case.now.bids) }
{
    let inputs = case.seats.len() as u32;
    match kind {
        Kind::Uniform => {
            let circuit = UniformPlan::from_numbers(alloc, inputs, numbers)?;
            let filled = fill(alloc, &circuit, case.bids.as_slice())?;
            Ok(filled)
        }
        Kind::Matching => {
            let circuit = MatchingPlan::from_numbers(alloc, inputs, numbers)?;
            let filled = fill(alloc, &circuit, case.bids.as_slice())?;
            Ok(filled)
        }
    }
}

/// The plan of a circuit that was made, and the values of its wires by those of its inputs.
fn fill<C: Circuit>(alloc: Global, made: &Option<C>, inputs: &[u64]) -> Result<Filled, NoMemory>
    requires claim { IsSomeAnd made.now (λ circuit. C.claim circuit inputs.now) }
    requires small { All IsResidue inputs.now }
    ensures plan { IfOk result
        (λ filled. IfSome made.now (λ circuit. filled.plan ≡ C.plan_of circuit)) }
    ensures values { IfOk result
        (λ filled. IfSome made.now (λ circuit. filled.values ≡ C.filled circuit inputs.now)) }
{
    match made {
        Some(circuit) => {
            let plan = circuit.plan(alloc)?;
            let inputs = residues(alloc, inputs)?;
            let values = circuit.fill(alloc, inputs.as_slice())?;
            Ok(Filled {
                plan,
                values: Seq::from_vec(values),
            })
        }
        None => unreachable!(),
    }
}

/// The numbers, as residues.
fn residues(alloc: Global, numbers: &[u64]) -> Result<Vec<Residue>, NoMemory>
    requires { All IsResidue numbers.now }
    ensures { IfOk result (λ same. same.items ≡ numbers.now) }
{
    let mut same = Vec::with_capacity(alloc, numbers.len())?;
    for number in numbers {
        same.push(Residue::new(*number).unwrap())?;
    }
    Ok(same)
}
