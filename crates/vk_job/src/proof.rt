ghost use Rattle.std.specs.Prelude.{◌≡◌, ◌-◌, ◌≤◌, length, slice_index_or, IfOk};
ghost use Rattle.vk_prover.specs.Laws.{IsTapeOf};
ghost use Rattle.vk_job.specs.Proofs.{IsPrepared, IsProof, lane_in, lane_shown_in, lane_tape_in, no_row, prepared_proof, seal_lines_of};

use std::alloc::Global;
use std::marker::Model;
use vk_board::{LaneLines, SealLines};
use vk_keeper::SealRow;
use vk_plan::{Plan, RowTable};
use vk_prover::{LaneTape, answer_lane, make_lane_with};
use vk_residue::{NoMemory, Residue};
use vk_seq::Seq;
use vk_wire::Shown;

/// What serves for every lane of a proof: the circuit with a table of its rows, the values of its
/// wires, and the tape of each lane, the first's first.
#[derive(Drop)]
pub struct Prepared {
    pub plan: Plan,
    pub table: RowTable,
    pub values: Seq<Residue>,
    pub tapes: Seq<LaneTape>,
}

/// What an honest proof is made from. What is published or shown of a lane is made at each call.
#[derive(Drop)]
pub struct HonestProof<'a> {
    id: &'a [u8; 16],
    rows: &'a [SealRow],
    lanes: u32,
    seed: [u8; 32],
    made: &'a Prepared,
}

impl<'a> Model for HonestProof<'a> {
    ghost use Rattle.vk_job.specs.Proofs.{ProofValue, IsPrepared, IsProof, prepared_proof};

    ghost Value = { ProofValue };

    ghost view = { λ p. prepared_proof p.id.now p.rows.now p.lanes p.seed p.made.now };

    ghost invariant = { λ p. IsProof
        (prepared_proof p.id.now p.rows.now p.lanes p.seed p.made.now)
        × IsPrepared (prepared_proof p.id.now p.rows.now p.lanes p.seed p.made.now) p.made.now };
}

impl<'a> HonestProof<'a> {
    /// The proof that is made from the auction's id, the rows of the circuit's inputs, so many
    /// lanes, the auctioneer's seed, and what was prepared. `draw_tapes` tells that no wire is dry,
    /// and gives the tapes.
    pub fn of(
        id: &'a [u8; 16],
        rows: &'a [SealRow],
        lanes: u32,
        seed: [u8; 32],
        made: &'a Prepared,
    ) -> HonestProof<'a>
        requires right { IsProof (prepared_proof id.now rows.now lanes seed made.now) }
        requires prepared { IsPrepared (prepared_proof id.now rows.now lanes seed made.now) made.now }
        ensures { result ≡ prepared_proof id.now rows.now lanes seed made.now }
    {
        HonestProof {
            id,
            rows,
            lanes,
            seed,
            made,
        }
    }

    /// How many seals are published.
    pub fn seals(&self) -> usize
        ensures value { result ≡ length self.now.rows }
        ensures proof { IsProof self.now }
    {
        self.rows.len()
    }

    /// How many lanes there are. 1 to 64.
    pub fn lanes(&self) -> u32
        ensures value { result ≡ self.now.lanes }
        ensures proof { IsProof self.now }
    {
        self.lanes
    }

    /// The seal at that position, counted from 1, as it stands on the board.
    pub fn seal(&self, alloc: Global, position: u32) -> Result<SealLines, NoMemory>
        requires some { 1 ≤ position }
        requires last { position ≤ length self.now.rows }
        ensures { IfOk result
            (λ lines. lines ≡ seal_lines_of (slice_index_or self.now.rows (position - 1) no_row)) }
    {
        let row = &self.rows[position as usize - 1];
        let coms = Vec::from_slice(alloc, row.seal.lanes.as_slice())?;
        Ok(SealLines {
            seat: row.seal.seat,
            coms: Seq::from_vec(coms),
        })
    }

    /// What is published of the lane, counted from 1.
    #[tactic(auto, unfolding(crate::specs::Proofs::lane_in))]
    pub fn lane(&self, alloc: Global, lane: u32) -> Result<LaneLines, NoMemory>
        requires some { 1 ≤ lane }
        requires last { lane ≤ self.now.lanes }
        ensures { IfOk result (λ lines. lines ≡ lane_in self.now lane) }
    {
        let lines = make_lane_with(
            alloc,
            &self.made.plan,
            &self.made.table,
            self.id,
            lane as u16,
            self.made.values.as_slice(),
            self.tape(lane),
        )?;
        Ok(lines)
    }

    /// What is shown of the lane, counted from 1, for that bit.
    #[tactic(auto, unfolding(crate::specs::Proofs::lane_shown_in))]
    pub fn shown(&self, alloc: Global, lane: u32, bit: bool) -> Result<Seq<Shown>, NoMemory>
        requires some { 1 ≤ lane }
        requires last { lane ≤ self.now.lanes }
        ensures { IfOk result (λ shown. shown ≡ lane_shown_in self.now lane bit) }
    {
        let values = self.made.values.as_slice();
        let shown = answer_lane(alloc, &self.made.plan, values, self.tape(lane), bit)?;
        Ok(shown)
    }

    /// The tape of the lane.
    fn tape(&self, lane: u32) -> &LaneTape
        requires some { 1 ≤ lane }
        requires last { lane ≤ self.now.lanes }
        ensures tape { result.now.wires ≡ lane_tape_in self.now lane }
        ensures of_plan { IsTapeOf self.now.plan result.now.wires }
    {
        &self.made.tapes.as_slice()[lane as usize - 1]
    }
}
