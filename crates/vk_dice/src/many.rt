// So many draws of a kind, one after another.
ghost use Rattle.std.specs.Prelude.{◌≡◌, ◌+◌, ◌<◌, ◌≤◌, ◌^◌, All, Ok, Err, IfErr, IfOk, length, vec_capacity};
ghost use Rattle.vk_dice.specs.Many.{after_draws, drawn_onto};

use crate::words::Words;

/// A kind of draw, of which several follow one another.
pub trait Draw {
    ghost use Rattle.std.specs.Prelude.{◌≡◌, IfSome};
    ghost use Rattle.vk_dice.specs.Many.{Drawing, words_after};

    /// What is drawn.
    type Item: Drop;

    /// What a draw gives of the words ahead, and which words are ahead after it.
    ghost drawing: { Self → Drawing Self.Item };

    /// What is true of all that is drawn.
    ghost is_item: { Self → Self.Item → Type 0 };

    /// Draws one. None where the words are dry for it.
    fn draw<W: Words>(&self, words: &mut W) -> Option<Self::Item>
        ensures drawn { result ≡ (drawing self.now).drawn (W.ahead words.old) }
        ensures after { W.ahead words.new
            ≡ words_after ((drawing self.now).dry (W.ahead words.old))
            ((drawing self.now).after (W.ahead words.old)) result }
        ensures right { IfSome result (is_item self.now) };
}

/// The draw of that number, counted from 0 with what was there before, is the first for which the
/// words are dry.
#[derive(Clone, Copy, Debug, PartialEq, Eq)]
pub struct DryDraw {
    pub number: u32,
}

/// Draws so many of that kind, one after another, behind what is there. Where a draw is dry, no
/// word is taken after those that it looked at. Takes no memory.
pub fn draw_onto<D: Draw, W: Words>(
    mut items: Vec<D::Item>,
    count: u32,
    kind: &D,
    words: &mut W,
) -> Result<Vec<D::Item>, DryDraw>
    requires room { length items.items + count ≤ vec_capacity items }
    requires few { length items.items + count < 2 ^ 32 }
    requires right { All (D.is_item kind.now) items.items }
    ensures drawn { IfOk result
        (λ all. drawn_onto (D.drawing kind.now) items.items count (W.ahead words.old)
        ≡ Ok all.items) }
    ensures dry { IfErr result
        (λ dry. drawn_onto (D.drawing kind.now) items.items count (W.ahead words.old)
        ≡ Err dry.number) }
    ensures number { IfErr result (λ dry. dry.number < length items.items + count) }
    ensures after { W.ahead words.new ≡ after_draws (D.drawing kind.now) count (W.ahead words.old) }
    ensures count { IfOk result (λ all. length all.items ≡ length items.items + count) }
    ensures right { IfOk result (λ all. All (D.is_item kind.now) all.items) }
{
    let first = items.len() as u32;
    for number in first..first + count {
        let item = kind.draw(words).ok_or(DryDraw { number })?;
        items.push(item).unwrap();
    }
    Ok(items)
}
