// The files of a proof.
ghost use Rattle.std.specs.Prelude.{◌≡◌, length};

use std::alloc::Global;
use vk_io::WrittenFiles;
use vk_job::HonestProof;
use vk_judge::TwoReplies;
use vk_reply::{Challenge, challenge_text};
use vk_residue::NoMemory;

/// The files that a proof behind that text of a head, two challenges and the replies to them are
/// written to.
#[derive(Drop)]
pub struct ProofFiles<'a> {
    pub names: TwoReplies<'a>,
    pub head: &'a [u8],
    pub proof: &'a HonestProof<'a>,
    pub first: &'a Challenge,
    pub second: &'a Challenge,
    pub ghost first_bits: { length first.now.bits ≡ proof.now.lanes },
    pub ghost second_bits: { length second.now.bits ≡ proof.now.lanes },
}

impl<'a> WrittenFiles for ProofFiles<'a> {
    ghost use Rattle.vk_words.specs.Names.{extract_seen};
    ghost use Rattle.vk_sample_parts.specs.Written.{written_of};

    ghost files = { λ f. written_of (extract_seen f.names) f.head.now f.proof.now f.first.now
        f.second.now };

    fn count(&self) -> usize {
        5
    }

    fn name(&self, file: usize) -> &str {
        match file {
            0 => self.names.file,
            1 => self.names.challenge1,
            2 => self.names.reply1,
            3 => self.names.challenge2,
            _ => self.names.reply2,
        }
    }

    fn pieces(&self, file: usize) -> usize {
        match file {
            0 => self.proof.file_pieces(),
            2 => self.proof.reply_pieces(self.first),
            4 => self.proof.reply_pieces(self.second),
            _ => 1,
        }
    }

    fn piece(&self, alloc: Global, file: usize, index: usize) -> Result<Vec<u8>, NoMemory> {
        let piece = match file {
            0 => self.proof.file_piece(alloc, self.head, index)?,
            1 => challenge_text(alloc, self.first)?,
            2 => self.proof.reply_piece(alloc, self.first, index)?,
            3 => challenge_text(alloc, self.second)?,
            _ => self.proof.reply_piece(alloc, self.second, index)?,
        };
        Ok(piece)
    }
}
