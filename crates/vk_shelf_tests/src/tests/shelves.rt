use std::alloc::Global;
use std::process::Abort;
use std::test::Fail;
use vk_io::{
    Content, FileText, MemShelf, MemSink, OutsideErr, PieceShelf, Shelf, Sink, WrittenFiles,
    read_whole, write_files,
};
use vk_seq::Seq;

#[test]
fn a_shelf_in_memory_holds_what_is_put(rt: HostRuntime) -> Result<(), Fail> {
    let mut shelf = MemShelf::new(rt.alloc());
    shelf.put_file("a", b"abc")?;
    shelf.create("b")?;
    shelf.append("b", b"de")?;
    shelf.append("b", b"f")?;
    shelf.append("c", b"g")?;
    try_held(&rt, &mut shelf)
}

// What is tried borrows the shelf: nothing is dropped where an assertion ends it, and so it is
// proved fast.

fn try_held(rt: &impl Abort, shelf: &mut MemShelf) -> Result<(), Fail> {
    assert!(rt; shelf.length("b")? == Some(3));
    assert!(rt; shelf.length("d")? == None);
    let mut into = [0u8; 4];
    assert!(rt; shelf.read_at("a", 1, &mut into)? == 2);
    assert!(rt; into == *b"bc\0\0");
    assert!(rt; shelf.file("b") == Some(b"def".as_slice()));
    assert!(rt; shelf.file("c") == Some(b"g".as_slice()));
    shelf.create("a")?;
    assert!(rt; shelf.length("a")? == Some(0));
    Ok(())
}

#[test]
fn the_named_calls_fail_and_change_nothing(rt: HostRuntime) -> Result<(), Fail> {
    let mut shelf = MemShelf::new(rt.alloc());
    shelf.put_file("a", b"abc")?;
    for call in 1..5u64 {
        shelf.fail_at(call)?;
    }
    try_refused(&rt, &mut shelf);
    let mut sink = MemSink::new(rt.alloc());
    sink.fail_at(2)?;
    try_sink(&rt, &mut sink)
}

fn try_refused(rt: &impl Abort, shelf: &mut MemShelf) {
    let mut into = [7u8; 2];
    assert!(rt; shelf.length("a") == Err(OutsideErr::Failed));
    assert!(rt; shelf.read_at("a", 0, &mut into) == Err(OutsideErr::Failed));
    assert!(rt; shelf.create("a") == Err(OutsideErr::Failed));
    assert!(rt; shelf.append("a", b"d") == Err(OutsideErr::Failed));
    assert!(rt; shelf.length("a") == Ok(Some(3)));
}

fn try_sink(rt: &impl Abort, sink: &mut MemSink) -> Result<(), Fail> {
    sink.put(b"ab")?;
    assert!(rt; sink.put(b"cd") == Err(OutsideErr::Failed));
    sink.put(b"e")?;
    assert!(rt; sink.bytes() == b"abe".as_slice());
    Ok(())
}

/// What `read_whole` found: the bytes, or a word for why there are none.
fn found<S: Shelf>(alloc: Global, shelf: &mut S, name: &str) -> Result<Vec<u8>, Fail> {
    match read_whole(alloc, shelf, name, 6)? {
        Content::Missing => Ok(b"missing".to_vec(alloc)?),
        Content::TooLong => Ok(b"too long".to_vec(alloc)?),
        Content::Held(bytes) => Ok(bytes.into_vec()),
    }
}

#[test]
fn a_file_is_read_whole(rt: HostRuntime) -> Result<(), Fail> {
    let mut shelf = MemShelf::new(rt.alloc());
    shelf.put_file("six", b"abcdef")?;
    shelf.put_file("seven", b"abcdefg")?;
    for (name, content) in [
        ("six", "abcdef"),
        ("seven", "too long"),
        ("none", "missing"),
    ] {
        let bytes = found(rt.alloc(), &mut shelf, name)?;
        assert!(rt; bytes.as_slice() == content.as_bytes());
    }
    Ok(())
}

#[test]
fn files_are_written_up_to_the_call_that_fails(rt: HostRuntime) -> Result<(), Fail> {
    let mut files = Seq::new(rt.alloc());
    files.push(file_text(rt.alloc(), "a", "first")?)?;
    files.push(file_text(rt.alloc(), "b", "second")?)?;
    let mut shelf = MemShelf::new(rt.alloc());
    shelf.fail_at(4)?;
    try_two_files(&rt, rt.alloc(), &mut shelf, &files);
    Ok(())
}

fn file_text(alloc: Global, name: &str, text: &str) -> Result<FileText, Fail> {
    let name = String::from_str(alloc, name)?;
    let text = Seq::from_vec(text.as_bytes().to_vec(alloc)?);
    Ok(FileText { name, text })
}

fn try_two_files(rt: &impl Abort, alloc: Global, shelf: &mut MemShelf, files: &Seq<FileText>) {
    assert!(rt; write_files(alloc, shelf, files) == Err(OutsideErr::Failed));
    assert!(rt; shelf.file("a") == Some(b"first".as_slice()));
    assert!(rt; shelf.file("b") == Some(b"".as_slice()));
    assert!(rt; write_files(alloc, shelf, files) == Ok(()));
    assert!(rt; shelf.file("b") == Some(b"second".as_slice()));
}

/// A text in three pieces, under one name.
#[derive(Drop)]
struct Poem;

impl WrittenFiles for Poem {
    ghost use Rattle.std.specs.Prelude.{[], ◌∷◌, codes};

    ghost files = { λ _. record {
      name = codes "poem";
      pieces = codes "one " ∷ codes "two " ∷ codes "three" ∷ [];
    } ∷ [] };

    fn count(&self) -> usize {
        1
    }

    fn name(&self, file: usize) -> &str {
        "poem"
    }

    fn pieces(&self, file: usize) -> usize {
        3
    }

    fn piece(
        &self,
        alloc: Global,
        file: usize,
        index: usize,
    ) -> Result<Vec<u8>, vk_residue::NoMemory> {
        let piece = match index {
            0 => Vec::from_slice(alloc, b"one ")?,
            1 => Vec::from_slice(alloc, b"two ")?,
            _ => Vec::from_slice(alloc, b"three")?,
        };
        Ok(piece)
    }
}

#[test]
fn a_file_is_written_piece_by_piece(rt: HostRuntime) -> Result<(), Fail> {
    let mut shelf = MemShelf::new(rt.alloc());
    shelf.put_file("poem", b"an older one")?;
    shelf.fail_at(3)?;
    try_poem(&rt, rt.alloc(), &mut shelf);
    Ok(())
}

fn try_poem(rt: &impl Abort, alloc: Global, shelf: &mut MemShelf) {
    assert!(rt; write_files(alloc, shelf, &Poem) == Err(OutsideErr::Failed));
    assert!(rt; shelf.file("poem") == Some(b"one ".as_slice()));
    assert!(rt; write_files(alloc, shelf, &Poem) == Ok(()));
    assert!(rt; shelf.file("poem") == Some(b"one two three".as_slice()));
}

/// So many bytes.
fn zeros(alloc: Global, count: usize) -> Result<Vec<u8>, Fail> {
    let bytes = vec![in alloc; 0u8; count]?;
    Ok(bytes)
}

#[test]
fn more_than_a_piece_at_once_is_a_fault(rt: HostRuntime) -> Result<(), Fail> {
    let mut inner = MemShelf::new(rt.alloc());
    inner.put_file("a", b"abc")?;
    inner.fail_at(4)?;
    let mut shelf = PieceShelf::over(inner);
    try_reads(&rt, rt.alloc(), &mut shelf)?;
    try_appends(&rt, rt.alloc(), &mut shelf)?;
    assert!(rt; shelf.create("a") == Err(OutsideErr::Failed));
    assert!(rt; shelf.inner().file("a") == Some(b"abc".as_slice()));
    Ok(())
}

fn try_reads<S: Shelf>(rt: &impl Abort, alloc: Global, shelf: &mut S) -> Result<(), Fail> {
    let mut more = zeros(alloc, 4097)?;
    let mut most = zeros(alloc, 4096)?;
    assert!(rt; shelf.read_at("a", 1, &mut most)? == 2);
    assert!(rt; shelf.read_at("a", 1, &mut more) == Err(OutsideErr::Failed));
    Ok(())
}

fn try_appends<S: Shelf>(rt: &impl Abort, alloc: Global, shelf: &mut S) -> Result<(), Fail> {
    let more = zeros(alloc, 2097153)?;
    assert!(rt; shelf.append("b", &more) == Err(OutsideErr::Failed));
    let most = zeros(alloc, 2097152)?;
    shelf.append("b", &most)?;
    assert!(rt; shelf.length("b")? == Some(2097152));
    Ok(())
}
