// `sample 1` and `claim-sample` over files that stay as they are: what is said of the replies is
// what is read, and not what was written.
use std::alloc::Global;
use vk_app::run;
use vk_cases::{Text, Tried, Unreplayed, WatchedShelf, behind, cut, read_cases, text_in, words_of};
use vk_io::{MemShelf, MemSink, Shelf};
use vk_keeper::MemKeeper;

const LINE: &[u8] = b"sample 1";

/// The file of the sample that is spoiled.
const SPOILED: &str = "sample-reply-2";

/// The files of a sample, in the order in which a case has what they hold.
const NAMES: &[&str] = &[
    "sample-board",
    "sample-challenge-1",
    "sample-reply-1",
    "sample-challenge-2",
    "sample-reply-2",
];

/// Those of a sample's claim.
const CLAIM_NAMES: &[&str] = &[
    "claim-board",
    "claim-challenge-1",
    "claim-reply-1",
    "claim-challenge-2",
    "claim-reply-2",
];

/// The files of a board of three lanes and one seal, whose bids are 0, 3 and 1.
const LANES: &[u8] = b"lanes-board lanes-zeros lanes-reply-zeros lanes-ones lanes-reply-ones";

/// How many calls fail in turn: the first ones that read a sample's files.
const CALLS: u64 = 10;

/// Tells what `sample 1` says over its own files, of which one is spoiled, and what it and
/// `claim-sample` say over files that others made; among these a board, and claim files of both
/// kinds, that have a right proof of another value in each lane.
pub fn push_samples<S: Shelf>(alloc: Global, shelf: &mut S, text: &mut Text) -> Tried<()> {
    push_spoiled(alloc, text)?;
    push_given(alloc, shelf, text)?;
    text.put(b"faults of sample: ");
    push_reads(alloc, shelf, text)?;
    push_made(alloc, text)
}

/// Tells what is said over the files of each case of `samples`, which is `PUBLIC CHALLENGE REPLY
/// CHALLENGE REPLY|WORDS|TOLD`.
fn push_given<S: Shelf>(alloc: Global, shelf: &mut S, text: &mut Text) -> Tried<()> {
    let cases = read_cases(alloc, shelf, "samples")?;
    let pushed = push_cases(alloc, shelf, text, cases.as_slice());
    pushed
}

fn push_cases<S: Shelf>(alloc: Global, shelf: &mut S, text: &mut Text, cases: &[u8]) -> Tried<()> {
    let mut rest = cases;
    for _ in 0..cases.len() {
        if rest.is_empty() {
            return Ok(());
        }
        let (case, behind) = cut(rest, b'\n');
        push_case(alloc, shelf, text, case)?;
        rest = behind;
    }
    Ok(())
}

/// What is told of a case.
fn push_case<S: Shelf>(alloc: Global, shelf: &mut S, text: &mut Text, case: &[u8]) -> Tried<()> {
    if case.is_empty() {
        return Ok(());
    }
    let (sources, behind) = cut(case, b'|');
    let (line, told) = cut(behind, b'|');
    let files = given_files(alloc, shelf, sources, names_of(line))?;
    let pushed = push_sample(alloc, text, told, line, files);
    pushed
}

/// The names of the files that these words write.
fn names_of(line: &[u8]) -> &'static [&'static str] {
    if line == LINE { NAMES } else { CLAIM_NAMES }
}

/// The files of these sources under these names.
fn given_files<S: Shelf>(
    alloc: Global,
    shelf: &mut S,
    sources: &[u8],
    names: &[&str],
) -> Tried<MemShelf> {
    let mut files = MemShelf::new(alloc);
    let put = put_files(alloc, shelf, &mut files, sources, names);
    put?;
    Ok(files)
}

fn put_files<S: Shelf>(
    alloc: Global,
    shelf: &mut S,
    files: &mut MemShelf,
    sources: &[u8],
    names: &[&str],
) -> Tried<()> {
    let mut rest = sources;
    for name in names {
        let (source, behind) = cut(rest, b' ');
        let bytes = read_cases(alloc, shelf, text_in(source)?)?;
        files.put_file(name, bytes.as_slice())?;
        rest = behind;
    }
    Ok(())
}

/// Tells whether each fault is told of the calls that read the files.
fn push_reads<S: Shelf>(alloc: Global, shelf: &mut S, text: &mut Text) -> Tried<()> {
    for call in 1..=CALLS {
        if !is_read_fault(alloc, shelf, call)? {
            text.put_count(b"untold at call ", call);
            return Ok(());
        }
    }
    text.put_line(b"every call told");
    Ok(())
}

/// Whether `sample 1` says nothing but that the outside failed, where the call of that number
/// fails.
fn is_read_fault<S: Shelf>(alloc: Global, shelf: &mut S, call: u64) -> Tried<bool> {
    let mut files = given_files(alloc, shelf, LANES, NAMES)?;
    files.fail_at(call)?;
    let mut fixed = WatchedShelf::fixed(alloc, files);
    let mut out = MemSink::new(alloc);
    let silent = is_silent(alloc, &mut fixed, &mut out);
    silent
}

/// Whether `sample 1` says nothing there but that the outside failed.
fn is_silent(alloc: Global, fixed: &mut WatchedShelf, out: &mut MemSink) -> Tried<bool> {
    let status = status_of(alloc, fixed, out, LINE)?;
    Ok(status == 6 && out.bytes().is_empty())
}

/// Tells of the board that `sample 1` makes its first line, its first seat, and what that commits
/// to in the first lane.
fn push_made(alloc: Global, text: &mut Text) -> Tried<()> {
    let mut files = MemShelf::new(alloc);
    let pushed = push_made_there(alloc, text, &mut files);
    pushed
}

fn push_made_there(alloc: Global, text: &mut Text, files: &mut MemShelf) -> Tried<()> {
    write_sample(alloc, files)?;
    push_front(text, files.file("sample-board").unwrap_or(&[]));
    Ok(())
}

/// The first line of a board, and its eighth and ninth.
fn push_front(text: &mut Text, board: &[u8]) {
    let mut rest = board;
    for number in 1u32..=9 {
        let (line, behind) = cut(rest, b'\n');
        if number == 1 || 7 < number {
            text.put_line(line);
        }
        rest = behind;
    }
}

/// Writes the files of `sample 1`.
fn write_sample(alloc: Global, files: &mut MemShelf) -> Tried<()> {
    let mut out = MemSink::new(alloc);
    let status = status_of(alloc, files, &mut out, LINE)?;
    if status != 0 {
        return Err(Unreplayed::NoCase);
    }
    Ok(())
}

/// The status of a command over no auction.
fn status_of<S: Shelf>(alloc: Global, shelf: &mut S, out: &mut MemSink, line: &[u8]) -> Tried<u8> {
    let words = words_of(alloc, line)?;
    let mut keeper = MemKeeper::new(alloc);
    let status = run(alloc, words.as_slice(), shelf, &mut keeper, out);
    Ok(status)
}

/// What is told of the files, and what these words say over them.
fn push_sample(
    alloc: Global,
    text: &mut Text,
    told: &[u8],
    line: &[u8],
    files: MemShelf,
) -> Tried<()> {
    let mut fixed = WatchedShelf::fixed(alloc, files);
    let mut out = MemSink::new(alloc);
    let pushed = push_over(alloc, text, &mut fixed, &mut out, told, line);
    pushed
}

fn push_over(
    alloc: Global,
    text: &mut Text,
    fixed: &mut WatchedShelf,
    out: &mut MemSink,
    told: &[u8],
    line: &[u8],
) -> Tried<()> {
    text.put_line(told);
    let status = status_of(alloc, fixed, out, line)?;
    text.put(line);
    text.put_count(b" | ", u64::from(status));
    text.put(out.bytes());
    Ok(())
}

/// Tells what `sample 1` says over its own files, of which one is spoiled.
fn push_spoiled(alloc: Global, text: &mut Text) -> Tried<()> {
    let files = spoiled_files(alloc)?;
    let pushed = push_sample(alloc, text, b"x begins sample-reply-2", LINE, files);
    pushed
}

/// The files that `sample 1` writes, of which one has `x` for its first byte.
fn spoiled_files(alloc: Global) -> Tried<MemShelf> {
    let mut files = MemShelf::new(alloc);
    let mut wrong = Vec::new(alloc);
    let written = write_spoiled(alloc, &mut files, &mut wrong);
    written?;
    Ok(files)
}

fn write_spoiled(alloc: Global, files: &mut MemShelf, wrong: &mut Vec<u8>) -> Tried<()> {
    write_sample(alloc, files)?;
    wrong.push(b'x')?;
    wrong.extend_from_slice(behind(files.file(SPOILED).ok_or(Unreplayed::NoCase)?, 1))?;
    files.put_file(SPOILED, wrong.as_slice())?;
    Ok(())
}
