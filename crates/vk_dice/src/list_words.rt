ghost use Rattle.std.specs.Prelude.{◌≡◌, IfOk, slice_index};
ghost use Rattle.vk_dice.specs.Words.{later};

use crate::words::Words;
use std::alloc::Global;
use std::marker::Model;
use vk_residue::NoMemory;

/// The words of a list, and then zeros. Contracts see it as the list of the words that are left.
#[derive(Drop)]
pub struct ListWords {
    words: Vec<u64>,
    at: usize,
}

impl Model for ListWords {
    ghost use Rattle.std.specs.Prelude.{ℕ, List, drop};

    ghost Value = { List ℕ };

    ghost view = { λ w. drop w.at w.words.items };
}

impl ListWords {
    /// These words, and then zeros. Errs for want of memory alone.
    pub fn of(alloc: Global, words: &[u64]) -> Result<ListWords, NoMemory>
        ensures { IfOk result (λ made. made ≡ words.now) }
    {
        let words = Vec::from_slice(alloc, words)?;
        Ok(ListWords { words, at: 0 })
    }
}

impl Words for ListWords {
    ghost use Rattle.std.specs.Prelude.{slice_index};

    ghost ahead = { slice_index };

    fn next(&mut self) -> u64 {
        match self.words.get(self.at) {
            Some(word) => {
                let word = *word;
                self.at += 1;
                word
            }
            None => 0,
        }
    }
}
