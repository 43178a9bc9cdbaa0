// The head of a sum file.
ghost use Rattle.std.specs.Prelude.{◌≡◌, IfOk};
ghost use Rattle.vk_lines.specs.Lines.{ReadsRight};
ghost use Rattle.vk_form_tests.specs.Forms.{IsSumHead, sum_head_at, sum_head_text};

use std::alloc::Global;
use vk_io::Shelf;
use vk_lines::{Lines, ReadErr, push_hex_line, push_line, push_number_line};
use vk_residue::NoMemory;

/// What a sum file says before its first seal.
#[derive(Clone, Copy)]
pub struct SumHead {
    pub auction: [u8; 16],
    /// What the three sealed numbers come to, at most 21.
    pub total: u64,
}

impl SumHead {
    /// Reads the head of a sum file, its first three lines. Malformed carries the number of the
    /// first line that isn't what its place demands.
    #[tactic(auto, unfolding(crate::specs::Forms::sum_head_at))]
    pub fn read<S: Shelf>(shelf: &mut S, lines: &mut Lines) -> Result<SumHead, ReadErr>
        ensures reads { ReadsRight sum_head_at IsSumHead S.held S.Shelf.faults
            lines.old lines.new shelf.old shelf.new result }
    {
        lines.read_fixed(shelf, b"sum-file 1")?;
        let auction = lines.read_id(shelf, b"auction")?;
        let total = lines.read_number(shelf, b"sum", 0, 21)?;
        Ok(SumHead { auction, total })
    }

    /// The head's text.
    #[tactic(auto, unfolding(crate::specs::Forms::sum_head_text))]
    pub fn text(&self, alloc: Global) -> Result<Vec<u8>, NoMemory>
        ensures { IfOk result (λ text. text.items ≡ sum_head_text self.now) }
    {
        let mut text = Vec::new(alloc);
        push_line(&mut text, b"sum-file 1")?;
        push_hex_line(&mut text, b"auction", &self.auction)?;
        push_number_line(&mut text, b"sum", self.total)?;
        Ok(text)
    }
}
