ghost use Rattle.std.specs.Prelude.{◌≡◌, ◌-◌, ◌<◌, ◌≤◌, [], length, slice_index_or, IfOk, IsSome};
ghost use Rattle.vk_board.specs.Values.{IsHead};
ghost use Rattle.vk_keeper.specs.Auctions.{IsAuction, challenge_of, seed_of};
ghost use Rattle.vk_job.specs.Answers.{JobAnswer};
ghost use Rattle.vk_job.specs.Jobs.{IsProvedAuction, proof_of, sale_in, winner_of};
ghost use Rattle.vk_job.specs.Proofs.{no_row, seal_lines_of};
ghost use Rattle.vk_job.specs.Published.{board_pieces, head_of, kept_bit, lane_of, shown_in};

use crate::errors::JobErr;
use crate::kept::{bit_in, seed_in};
use crate::proof::{HonestProof, Prepared};
use crate::sale::{further_wires, plan_of, price_in, sale_in, values_of, winner_of};
use crate::tapes::draw_tapes;
use std::alloc::Global;
use std::marker::Model;
use vk_board::{Head, LaneLines, SealLines, head_text};
use vk_keeper::Auction;
use vk_plan::RowTable;
use vk_residue::NoMemory;
use vk_seq::Seq;
use vk_vickrey::Sale;
use vk_wire::Shown;

/// An auction in a phase with a seed, which gives a tape for every lane, and the sale of its bids.
/// All that serves for every lane is kept, so that no lane makes it anew.
#[derive(Drop)]
pub struct Job {
    auction: Auction,
    sale: Sale,
    made: Prepared,
}

impl Model for Job {
    ghost use Rattle.vk_job.specs.JobValues.{JobValue, IsJob, job_code};

    ghost Value = { JobValue };

    ghost coded = { job_code };

    ghost view = { λ j. record { auction = j.auction; sale = j.sale } };

    ghost invariant = { λ j. IsJob j.auction j.sale j.made };
}

impl Job {
    /// The job of an auction whose phase has a seed. Errs where a wire is dry, which the first is
    /// told of, whatever memory there is; and where none is dry, for want of memory.
    pub fn of(alloc: Global, auction: Auction) -> Result<Job, JobErr>
        requires right { IsAuction auction }
        requires seeded { IsSome (seed_of auction.phase) }
        ensures { JobAnswer result auction }
    {
        let sale = sale_in(&auction);
        let tapes = draw_tapes(
            alloc,
            &auction.id,
            auction.seals.as_slice(),
            auction.lanes,
            &seed_in(&auction.phase),
            further_wires(&auction, sale),
        )?;
        let plan = plan_of(alloc, &auction, sale)?;
        let table = RowTable::of(alloc, &plan)?;
        let values = values_of(alloc, &auction, sale)?;
        let made = Prepared {
            plan,
            table,
            values: Seq::from_vec(values),
            tapes,
        };
        Ok(Job {
            auction,
            sale,
            made,
        })
    }

    /// The auction that is proved.
    pub fn auction(&self) -> &Auction
        ensures value { result.now ≡ self.now.auction }
        ensures proved { IsProvedAuction self.now.auction }
    {
        &self.auction
    }

    /// Who wins, and at which price, or that nothing is sold.
    pub fn sale(&self) -> Sale
        ensures value { result ≡ self.now.sale }
        ensures sale { self.now.sale ≡ sale_in self.now.auction }
    {
        self.sale
    }

    /// The seat of the winner, None where nothing is sold.
    pub fn winner(&self) -> Option<u16>
        ensures { result ≡ winner_of self.now.auction }
    {
        winner_of(&self.auction, self.sale)
    }

    /// What the board, which is one of the auction's version, says of the auction as a whole.
    #[tactic(auto, unfolding(crate::specs::Published::head_of))]
    pub fn head(&self) -> Head
        ensures value { result ≡ head_of self.now.auction }
        ensures right { IsHead result }
    {
        Head {
            auction: self.auction.id,
            version: self.auction.version,
            width: self.auction.width,
            lanes: self.auction.lanes,
            seals: self.auction.seals.len() as u32,
            reserve: self.auction.reserve,
            winner: self.winner(),
            price: price_in(self.sale),
        }
    }

    /// The seal at that position, counted from 1, as it stands on the board.
    pub fn seal(&self, alloc: Global, position: u32) -> Result<SealLines, NoMemory>
        requires some { 1 ≤ position }
        requires last { position ≤ length self.now.auction.seals }
        ensures { IfOk result
            (λ lines. lines ≡ seal_lines_of
            (slice_index_or self.now.auction.seals (position - 1) no_row)) }
    {
        let lines = self.proof().seal(alloc, position)?;
        Ok(lines)
    }

    /// What is published of the lane, counted from 1.
    pub fn lane(&self, alloc: Global, lane: u32) -> Result<LaneLines, NoMemory>
        requires some { 1 ≤ lane }
        requires last { lane ≤ self.now.auction.lanes }
        ensures { IfOk result (λ lines. lines ≡ lane_of self.now.auction lane) }
    {
        let lines = self.proof().lane(alloc, lane)?;
        Ok(lines)
    }

    /// What is shown of the lane, counted from 1, for its bit in the challenge that is kept. The
    /// phase has one.
    pub fn reply(&self, alloc: Global, lane: u32) -> Result<Seq<Shown>, NoMemory>
        requires answered { IsSome (challenge_of self.now.auction.phase) }
        requires some { 1 ≤ lane }
        requires last { lane ≤ self.now.auction.lanes }
        ensures { IfOk result
            (λ shown. shown ≡ shown_in self.now.auction lane
            (kept_bit self.now.auction.phase lane)) }
    {
        let bit = bit_in(&self.auction.phase, lane);
        let shown = self.proof().shown(alloc, lane, bit)?;
        Ok(shown)
    }

    /// How many pieces the board's file is written in: its head, each seal, each lane, and its end.
    pub fn board_pieces(&self) -> usize
        ensures { result ≡ length (board_pieces self.now.auction) }
    {
        self.proof().file_pieces()
    }

    /// A piece of the board's file, counted from 0.
    pub fn board_piece(&self, alloc: Global, index: usize) -> Result<Vec<u8>, NoMemory>
        requires { index < length (board_pieces self.now.auction) }
        ensures { IfOk result (λ piece. piece.items
            ≡ slice_index_or (board_pieces self.now.auction) index []) }
    {
        if index == 0 {
            return head_text(alloc, &self.head());
        }
        // a piece behind the head's is the same behind any
        self.proof().file_piece(alloc, &[], index)
    }

    /// Its proof, which borrows what it is made from.
    pub fn proof(&self) -> HonestProof<'_>
        ensures { result ≡ proof_of self.now.auction }
    {
        HonestProof::of(
            &self.auction.id,
            self.auction.seals.as_slice(),
            self.auction.lanes,
            seed_in(&self.auction.phase),
            &self.made,
        )
    }
}
