ghost use Rattle.std.specs.Prelude.{◌≡◌, IfOk};

use crate::auction::{Auction, Phase, SealRow};
use std::alloc::Global;
use vk_reply::Challenge;
use vk_residue::NoMemory;
use vk_seal::{Seal, Secret};
use vk_seq::Seq;

impl Auction {
    /// An equal auction. Errs for want of memory alone.
    pub fn copy(&self, alloc: Global) -> Result<Auction, NoMemory>
        ensures { IfOk result (λ copy. copy ≡ self.now) }
    {
        let phase = copy_phase(alloc, &self.phase)?;
        let seals = copy_rows(alloc, self.seals.as_slice())?;
        Ok(Auction {
            id: self.id,
            version: self.version,
            width: self.width,
            lanes: self.lanes,
            reserve: self.reserve,
            phase,
            seals,
        })
    }
}

fn copy_phase(alloc: Global, phase: &Phase) -> Result<Phase, NoMemory>
    ensures { IfOk result (λ copy. copy ≡ phase.now) }
{
    match phase {
        Phase::Taking => Ok(Phase::Taking),
        Phase::Proved { seed } => Ok(Phase::Proved { seed: *seed }),
        Phase::Answered { seed, challenge } => {
            let bits = copy_items(alloc, challenge.bits.as_slice())?;
            Ok(Phase::Answered {
                seed: *seed,
                challenge: Challenge { bits },
            })
        }
    }
}

fn copy_rows(alloc: Global, rows: &[SealRow]) -> Result<Seq<SealRow>, NoMemory>
    ensures { IfOk result (λ copies. copies ≡ rows.now) }
{
    let mut copies = Seq::new(alloc);
    for row in rows {
        let copy = copy_row(alloc, row)?;
        copies.push(copy)?;
    }
    Ok(copies)
}

fn copy_row(alloc: Global, row: &SealRow) -> Result<SealRow, NoMemory>
    ensures { IfOk result (λ copy. copy ≡ row.now) }
{
    let (seal, secret) = (&row.seal, &row.secret);
    let coms = copy_items(alloc, seal.lanes.as_slice())?;
    let tapes = copy_items(alloc, secret.lanes.as_slice())?;
    Ok(SealRow {
        seal: Seal {
            auction: seal.auction,
            seat: seal.seat,
            lanes: coms,
        },
        secret: Secret {
            auction: secret.auction,
            seat: secret.seat,
            bid: secret.bid,
            lanes: tapes,
        },
    })
}

fn copy_items<T: Copy>(alloc: Global, items: &[T]) -> Result<Seq<T>, NoMemory>
    ensures { IfOk result (λ copies. copies ≡ items.now) }
{
    let items = Vec::from_slice(alloc, items)?;
    Ok(Seq::from_vec(items))
}
