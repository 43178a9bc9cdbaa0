// Steps that are taken again and again.
use crate::stage::Stage;
use crate::steps::take_step;
use vk_cases::{Tried, Unreplayed, behind, cut, word_at};

/// A letter, and the first and the last number that it has. Behind it a step begins.
#[derive(Clone, Copy)]
struct Range<'a> {
    letter: u8,
    from: u64,
    to: u64,
    step: &'a [u8],
}

/// Takes each piece of a text in this way. Between the pieces stands that mark, and behind a last
/// mark no further piece.
fn take_each<F: Fn(&mut Stage, &[u8]) -> Tried<()>>(
    stage: &mut Stage,
    text: &[u8],
    mark: u8,
    take: F,
) -> Tried<()>
    requires { F.IsAlwaysCallable take }
{
    let mut rest = text;
    for _ in 0..text.len() {
        if rest.is_empty() {
            return Ok(());
        }
        let (piece, behind) = cut(rest, mark);
        take(stage, piece)?;
        rest = behind;
    }
    Ok(())
}

/// Takes a text in this way for each number of the range.
fn take_range<F: Fn(&mut Stage, &[u8]) -> Tried<()>>(
    stage: &mut Stage,
    range: &Range<'_>,
    text: &[u8],
    take: F,
) -> Tried<()>
    requires { F.IsAlwaysCallable take }
{
    for number in range.from..=range.to {
        stage.numbers.put(range.letter, number)?;
        take(stage, text)?;
    }
    Ok(())
}

/// Takes the blocks, before each of which stands `~`.
pub fn take_blocks(stage: &mut Stage, steps: &[u8]) -> Tried<()> {
    take_each(stage, steps, b'~', take_block)
}

/// Takes the lines of a block, for each number of the loop that its first line may be.
fn take_block(stage: &mut Stage, block: &[u8]) -> Tried<()> {
    let (head, lines) = cut(block, b'\n');
    if head.first() != Some(&b'*') {
        return take_lines(stage, lines);
    }
    let range = range_of(stage, head)?;
    take_range(stage, &range, lines, take_lines)
}

/// Takes the lines of a block once.
fn take_lines(stage: &mut Stage, lines: &[u8]) -> Tried<()> {
    take_each(stage, lines, b'\n', take_line)
}

/// Takes a line, which may be empty or a comment, that begins with `#`. Before its steps may stand
/// one or two loops, `*LETTER FROM TO`: they are taken for each of these numbers.
fn take_line(stage: &mut Stage, line: &[u8]) -> Tried<()> {
    match line.first() {
        None | Some(b'#') => Ok(()),
        Some(b'*') => take_outer(stage, line),
        Some(_) => take_steps(stage, line),
    }
}

/// Takes a line for each number of its first loop.
fn take_outer(stage: &mut Stage, line: &[u8]) -> Tried<()> {
    let range = range_of(stage, line)?;
    take_range(stage, &range, range.step, take_inner)
}

/// Takes a line for each number of its second loop, where it has one.
fn take_inner(stage: &mut Stage, line: &[u8]) -> Tried<()> {
    if line.first() != Some(&b'*') {
        return take_steps(stage, line);
    }
    let range = range_of(stage, line)?;
    take_range(stage, &range, range.step, take_steps)
}

/// Takes the steps of a line, between which stands `;`.
fn take_steps(stage: &mut Stage, steps: &[u8]) -> Tried<()> {
    take_each(stage, steps, b';', take_step)
}

/// The loop at the front of a line, `*LETTER FROM TO`.
fn range_of<'a>(stage: &Stage, line: &'a [u8]) -> Tried<Range<'a>> {
    let from = word_at(line, 1)?;
    let to = word_at(line, 2)?;
    Ok(Range {
        letter: *line.get(1).ok_or(Unreplayed::NoCase)?,
        from: stage.numbers.value(from)?,
        to: stage.numbers.value(to)?,
        step: behind(line, from.len().saturating_add(to.len()).saturating_add(5)),
    })
}
