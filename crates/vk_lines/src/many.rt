//! So many lines of a kind, one after another.

ghost use Rattle.std.specs.Prelude.{◌≡◌, ◌<◌, ◌≤◌, ◌⊎◌, length, IfOk, IsErrOf};
ghost use Rattle.vk_io.specs.Faults.{MayCause, Rose};
ghost use Rattle.vk_lines.specs.Forms.{EachNumbered, many_at};
ghost use Rattle.vk_lines.specs.Lines.{Reads, ReadsFreely, line_by};

use crate::errors::ReadErr;
use crate::lines::Lines;
use std::alloc::Global;
use vk_io::Shelf;
use vk_seq::Seq;

/// A kind of line, of which several stand one after another, numbered from 0.
pub trait LineKind {
    ghost use Rattle.std.specs.Prelude.{◌≡◌, ◌<◌, ◌^◌, ℕ, List, Option, IfSome};

    /// What such a line says.
    type Item: Drop;

    /// How many such lines there may be.
    ghost most: { Self → ℕ } = { λ _. 2 ^ 32 };

    /// What the line of that number says, where it is such a line.
    ghost item_of: { Self → ℕ → List ℕ → Option Self.Item };

    /// What is true of all that the line of that number may say.
    ghost is_item: { Self → ℕ → Self.Item → Type 0 };

    /// Reads the line of that number.
    fn read(&self, number: u32, text: &[u8]) -> Option<Self::Item>
        requires { number < most self.now }
        ensures value { result ≡ item_of self.now number text.now }
        ensures right { IfSome result (is_item self.now number) };
}

/// Reads so many lines of that kind. Malformed carries the number of the first line that is none.
/// The memory for all is taken before the first is read, and none after that.
pub fn read_many<S: Shelf, K: LineKind>(
    alloc: Global,
    shelf: &mut S,
    lines: &mut Lines,
    kind: &K,
    count: u32,
) -> Result<Seq<K::Item>, ReadErr>
    requires { count ≤ K.most kind.now }
    ensures reads { Reads (many_at count (λ before. line_by (K.item_of kind.now (length before))))
        S.held S.Shelf.faults lines.old lines.new shelf.old shelf.new result }
    ensures number { IfOk result (λ items. length items ≡ count) }
    ensures each { IfOk result (EachNumbered (K.is_item kind.now)) }
    ensures wants { MayCause ReadErr.NoMemory result (S.Shelf.wants shelf.old)
        (S.Shelf.wants shelf.new) }
    ensures first { IsErrOf result ReadErr.NoMemory
        → (lines.new ≡ lines.old) ⊎ Rose (S.Shelf.wants shelf.old) (S.Shelf.wants shelf.new) }
{
    let mut items = Vec::with_capacity(alloc, count as usize)?;
    for number in 0..count {
        let item = read_item(shelf, lines, kind, number)?;
        items.push(item)?;
    }
    Ok(Seq::from_vec(items))
}

/// Reads the line of that number of its kind.
#[tactic(auto, unfolding(crate::specs::Lines::line_by))]
pub fn read_item<S: Shelf, K: LineKind>(
    shelf: &mut S,
    lines: &mut Lines,
    kind: &K,
    number: u32,
) -> Result<K::Item, ReadErr>
    requires { number < K.most kind.now }
    ensures reads { ReadsFreely (line_by (K.item_of kind.now number))
        S.held S.Shelf.faults S.Shelf.wants lines.old lines.new shelf.old shelf.new result }
    ensures right { IfOk result (K.is_item kind.now number) }
{
    lines.read_text(shelf)?;
    let item = lines.require(kind.read(number, lines.text()));
    item
}
