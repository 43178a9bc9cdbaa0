// The files of a proof, piece by piece: what is published behind a head's text, and a reply.
ghost use Rattle.std.specs.Prelude.{◌≡◌, ◌-◌, ◌<◌, ◌≤◌, ℕ, List, [], codes, length, slice_index_or, IfOk};
ghost use Rattle.vk_lines.specs.Forms.{line};
ghost use Rattle.vk_board.specs.Texts.{lane_text, seal_lines_text};
ghost use Rattle.vk_reply.specs.Texts.{reply_lane_text};
ghost use Rattle.vk_job.specs.Proofs.{file_pieces, lane_in, lane_shown_in, no_row, reply_pieces_in, seal_lines_of};

use crate::proof::HonestProof;
use std::alloc::Global;
use vk_board::{lane_text, seal_lines_text};
use vk_lines::push_line;
use vk_reply::{Challenge, reply_head_text, reply_lane_text};
use vk_residue::NoMemory;

impl<'a> HonestProof<'a> {
    /// How many pieces its file is written in: the head's text, each seal, each lane, and its end.
    pub fn file_pieces(&self) -> usize
        ensures { (head : List ℕ) → result ≡ length (file_pieces head self.now) }
    {
        self.seals() + self.lanes() as usize + 2
    }

    /// A piece of its file behind that text of a head, counted from 0, which is that text.
    pub fn file_piece(&self, alloc: Global, head: &[u8], index: usize) -> Result<Vec<u8>, NoMemory>
        requires { index < length (file_pieces head.now self.now) }
        ensures { IfOk result (λ piece. piece.items
            ≡ slice_index_or (file_pieces head.now self.now) index []) }
    {
        let seals = self.seals();
        let lanes = self.lanes() as usize;
        if index == 0 {
            let piece = Vec::from_slice(alloc, head)?;
            return Ok(piece);
        }
        if index <= seals {
            let piece = self.seal_piece(alloc, index as u32)?;
            return Ok(piece);
        }
        if index <= seals + lanes {
            let piece = self.lane_piece(alloc, (index - seals) as u32)?;
            return Ok(piece);
        }
        let piece = end_piece(alloc)?;
        Ok(piece)
    }

    /// The piece of the seal at that position, counted from 1.
    fn seal_piece(&self, alloc: Global, position: u32) -> Result<Vec<u8>, NoMemory>
        requires some { 1 ≤ position }
        requires last { position ≤ length self.now.rows }
        ensures { IfOk result (λ piece.
            piece.items ≡ seal_lines_text
            (seal_lines_of (slice_index_or self.now.rows (position - 1) no_row))) }
    {
        let lines = self.seal(alloc, position)?;
        let piece = seal_lines_text(alloc, &lines)?;
        Ok(piece)
    }

    /// The piece of the lane, counted from 1.
    fn lane_piece(&self, alloc: Global, lane: u32) -> Result<Vec<u8>, NoMemory>
        requires some { 1 ≤ lane }
        requires last { lane ≤ self.now.lanes }
        ensures { IfOk result (λ piece. piece.items ≡ lane_text lane (lane_in self.now lane)) }
    {
        let lines = self.lane(alloc, lane)?;
        let piece = lane_text(alloc, lane, &lines)?;
        Ok(piece)
    }

    /// How many pieces the file of the reply to a challenge is written in: its head, each lane, and
    /// its end. The challenge has a bit for each lane.
    pub fn reply_pieces(&self, challenge: &Challenge) -> usize
        requires { length challenge.now.bits ≡ self.now.lanes }
        ensures { result ≡ length (reply_pieces_in self.now challenge.now.bits) }
    {
        self.lanes() as usize + 2
    }

    /// A piece of that file, counted from 0.
    pub fn reply_piece(
        &self,
        alloc: Global,
        challenge: &Challenge,
        index: usize,
    ) -> Result<Vec<u8>, NoMemory>
        requires bits { length challenge.now.bits ≡ self.now.lanes }
        requires index { index < length (reply_pieces_in self.now challenge.now.bits) }
        ensures { IfOk result
            (λ piece. piece.items
            ≡ slice_index_or (reply_pieces_in self.now challenge.now.bits) index []) }
    {
        let lanes = self.lanes();
        if index == 0 {
            let piece = reply_head_text(alloc, lanes)?;
            return Ok(piece);
        }
        if index <= lanes as usize {
            let bit = challenge.bits.as_slice()[index - 1];
            let piece = self.shown_piece(alloc, index as u32, bit)?;
            return Ok(piece);
        }
        let piece = end_piece(alloc)?;
        Ok(piece)
    }

    /// The piece of what is shown of the lane, counted from 1, for that bit.
    fn shown_piece(&self, alloc: Global, lane: u32, bit: bool) -> Result<Vec<u8>, NoMemory>
        requires some { 1 ≤ lane }
        requires last { lane ≤ self.now.lanes }
        ensures { IfOk result (λ piece. piece.items
            ≡ reply_lane_text lane (lane_shown_in self.now lane bit)) }
    {
        let shown = self.shown(alloc, lane, bit)?;
        let piece = reply_lane_text(alloc, lane, shown.as_slice())?;
        Ok(piece)
    }
}

/// The last line of both files.
fn end_piece(alloc: Global) -> Result<Vec<u8>, NoMemory>
    ensures { IfOk result (λ piece. piece.items ≡ line (codes "end")) }
{
    let mut piece = Vec::new(alloc);
    push_line(&mut piece, b"end")?;
    Ok(piece)
}
