//! Lines of a word and two digests, one after another.

ghost use Rattle.std.specs.Prelude.{◌≡◌, ◌++◌, OnOk};
ghost use Rattle.std.specs.List.{flat_map};
ghost use Rattle.vk_lines.specs.Forms.{digests_text, line};

use crate::many::LineKind;
use crate::tokens::read_digests;
use crate::writing::push_digests_line;
use std::marker::PhantomData;
use vk_digests::TwoDigests;
use vk_residue::NoMemory;

/// Lines of this word and two digests, each read as what they make.
#[derive(Drop)]
pub struct DigestsLine<'a, C> {
    pub word: &'a [u8],
    pub made: PhantomData<C>,
}

impl<'a, C: TwoDigests + Drop> LineKind for DigestsLine<'a, C> {
    ghost use Rattle.vk_lines.specs.Tokens.{digests_line, HasDigests};

    type Item = C;

    ghost item_of = { λ kind _ text. digests_line C.made kind.word.now text };

    ghost is_item = { λ _ _ item. HasDigests (C.first_of item) (C.second_of item) };

    fn read(&self, _number: u32, text: &[u8]) -> Option<C> {
        let item = read_digests(text, self.word);
        item
    }
}

/// Appends a line of this word for each two digests.
pub fn push_digests_lines<C: TwoDigests>(
    out: &mut Vec<u8>,
    word: &[u8],
    items: &[C],
) -> Result<(), NoMemory>
    ensures { OnOk result (out.new.items ≡ out.old.items
        ++ flat_map (λ item. line (digests_text word.now (C.first_of item) (C.second_of item)))
        items.now) }
{
    for item in items {
        push_digests_line(out, word, item.first(), item.second())?;
    }
    Ok(())
}
