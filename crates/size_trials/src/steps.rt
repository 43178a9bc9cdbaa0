// The steps.
use crate::digests::{push_commitment, push_derived, push_digests};
use crate::stage::Stage;
use crate::texts::push_filled;
use vk_cases::{Text, Tried, Unreplayed, behind, cut, number_at, text_in, word_at};

/// Takes a step that stands behind no loop. Before it may stand `?EXPRESSION`: then it is taken
/// where that isn't 0. Each but `set` has its places filled, first with numbers and then
/// with fields.
///
/// - `set LETTER EXPRESSION`: a number.
/// - `add TEXT`, `line TEXT`, `space`: to the text that is made.
/// - `copy NAME FROM TO`: these lines of a file, to the text.
/// - `save NAME`: the text is the file of that name, and another text begins.
/// - `holds NAME`: the file of that name has to be the text, and another text begins.
/// - `keep NAME`: what was printed last is the file of that name.
/// - `change NAME NUMBER`: the text in place of that line, until the next run is over.
/// - `missing NAME`, `long NAME`: that file is said to be so, until the next run is over.
/// - `names NAME ..`: the next run may look at these, which its words don't have.
/// - `forget`: the house knows nothing again.
/// - `run STATUS WORD .. | LINE`: a command, which has to end so and to print that line; without it,
///   the text; and another text begins.
/// - `tried NAME`: one more of these is counted.
/// - `digests WORD SEAT LANE SLOT VALUE VALUE`: the line of the two digests of a wire whose keys are
///   0, to the text.
/// - `commitment SEAT LANE SLOT KEY VALUE`: the line of its digest, to the text.
/// - `derived NAME LANES`: the line of the bits that a board gives, to the text.
pub fn take_step(stage: &mut Stage, step: &[u8]) -> Tried<()> {
    if step.first() != Some(&b'?') {
        return take_due(stage, step);
    }
    let (condition, step) = cut(behind(step, 1), b' ');
    if stage.numbers.value(condition)? == 0 {
        return Ok(());
    }
    take_due(stage, step)
}

/// Takes a step whose condition holds.
fn take_due(stage: &mut Stage, step: &[u8]) -> Tried<()> {
    if word_at(step, 0)? == b"set".as_slice() {
        return set(stage, step);
    }
    let mut numbered = Text::new(stage.alloc);
    let mut made = Text::new(stage.alloc);
    let taken = take_made(stage, step, &mut numbered, &mut made);
    taken
}

/// Takes a step whose places are filled there: what an error drops takes seconds to prove.
fn take_made(stage: &mut Stage, step: &[u8], numbered: &mut Text, made: &mut Text) -> Tried<()> {
    push_filled(numbered, &stage.numbers, step)?;
    push_filled(made, &stage.files, numbered.bytes()?)?;
    take_filled(stage, made.bytes()?)
}

/// Has a number for a letter.
fn set(stage: &mut Stage, step: &[u8]) -> Tried<()> {
    let letter = *word_at(step, 1)?.first().ok_or(Unreplayed::NoCase)?;
    let number = stage.numbers.value(word_at(step, 2)?)?;
    stage.numbers.put(letter, number)
}

/// Takes a step whose places are filled.
fn take_filled(stage: &mut Stage, step: &[u8]) -> Tried<()> {
    let (word, rest) = cut(step, b' ');
    match text_in(word)? {
        "run" => return run_step(stage, rest),
        "add" => stage.text.put(rest),
        "line" => stage.text.put_line(rest),
        "space" => stage.text.put(b" "),
        "tried" => stage.counts.add(rest)?,
        "forget" => stage.forget(),
        "names" => stage.files.name(rest)?,
        name => return take_file(stage, name, rest),
    }
    Ok(())
}

/// A step with a file.
fn take_file(stage: &mut Stage, word: &str, rest: &[u8]) -> Tried<()> {
    let (name, _behind) = cut(rest, b' ');
    match word {
        "copy" => stage.copy(
            name,
            number_at(rest, 1, u64::MAX)?,
            number_at(rest, 2, u64::MAX)?,
        ),
        "save" => stage.save(name),
        "holds" => stage.holds(rest, name),
        "keep" => stage.files.put(name, stage.printed.as_slice()),
        "change" => stage.change(name, number_at(rest, 1, u64::MAX)?),
        _ => take_other(stage, word, rest),
    }
}

/// A rarer step.
fn take_other(stage: &mut Stage, word: &str, rest: &[u8]) -> Tried<()> {
    match word {
        "missing" => stage.files.missing.extend_from_slice(rest)?,
        "long" => stage.files.long.extend_from_slice(rest)?,
        "digests" => push_digests(&mut stage.text, rest)?,
        "commitment" => push_commitment(&mut stage.text, rest)?,
        "derived" => push_derived(stage, rest)?,
        _ => return Err(Unreplayed::NoCase),
    }
    Ok(())
}

/// Runs a command, and tells of it where it ends otherwise.
fn run_step(stage: &mut Stage, rest: &[u8]) -> Tried<()> {
    let wanted = number_at(rest, 0, 9)?;
    let (command, line) = cut(behind(rest, 2), b'|');
    if !line.is_empty() {
        stage.text.put_line(behind(line, 1));
    }
    begin(stage, command)?;
    let status = stage.run(command)?;
    stage.judge(rest, wanted, u64::from(status))
}

/// Tells the files which names the words of the run have: those of a ceremony, its script's too.
fn begin(stage: &mut Stage, command: &[u8]) -> Tried<()> {
    stage.files.name(command)?;
    let (word, words) = cut(command, b' ');
    if word != b"ceremony".as_slice() {
        return Ok(());
    }
    let (script, _behind) = cut(words, b' ');
    stage.files.name_script(script)
}
