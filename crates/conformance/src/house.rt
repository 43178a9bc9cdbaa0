// What commands are run over, in memory.
use sha2::{Digest, Sha256};
use std::alloc::Global;
use vk_app::run;
use vk_cases::{Text, Tried, behind, cut, number_at, read_cases, text_in};
use vk_io::{MemShelf, MemSink, Shelf};
use vk_keeper::MemKeeper;

/// Files, auctions that are kept, and what was printed. It is lent to all that is tried over it,
/// and made and dropped in one place: what an error drops takes seconds to prove.
#[derive(Drop)]
pub struct House {
    pub alloc: Global,
    files: MemShelf,
    /// The files that are noted, as they were then.
    noted: MemShelf,
    keeper: MemKeeper,
    out: MemSink,
}

impl House {
    /// No files, and no auctions.
    pub fn new(alloc: Global) -> House {
        House {
            alloc,
            files: MemShelf::new(alloc),
            noted: MemShelf::new(alloc),
            keeper: MemKeeper::new(alloc),
            out: MemSink::new(alloc),
        }
    }

    /// No auctions again.
    pub fn forget(&mut self) {
        self.keeper = MemKeeper::new(self.alloc);
    }

    /// Has a call fail from now on, of the number that the step says behind its word.
    pub fn fail(&mut self, word: &str, step: &[u8]) -> Tried<()> {
        let call = number_at(step, 2, u64::MAX)?;
        match word {
            "fail-shelf" => self.files.fail_at(call)?,
            "fail-keeper" => self.keeper.fail_at(call)?,
            _ => self.out.fail_at(call)?,
        }
        Ok(())
    }

    /// Puts the files of a case. Its name, and what stands behind the files.
    pub fn begin<'a, S: Shelf>(
        &mut self,
        shelf: &mut S,
        case: &'a [u8],
    ) -> Tried<(&'a [u8], &'a [u8])> {
        let (name, behind) = cut(case, b'|');
        let (files, behind) = cut(behind, b'|');
        self.put_files(shelf, files)?;
        Ok((name, behind))
    }

    /// Puts the files of a part. Each stands there as `NAME=FILE`, or as `NAME=FILE+FILE`, one
    /// behind the other.
    fn put_files<S: Shelf>(&mut self, shelf: &mut S, part: &[u8]) -> Tried<()> {
        let mut rest = part;
        for _ in 0..part.len() {
            let (word, behind) = cut(rest, b' ');
            if !word.is_empty() {
                self.put_file(shelf, word)?;
            }
            rest = behind;
        }
        Ok(())
    }

    fn put_file<S: Shelf>(&mut self, shelf: &mut S, word: &[u8]) -> Tried<()> {
        let (name, pieces) = cut(word, b'=');
        let name = text_in(name)?;
        let mut bytes = Text::new(self.alloc);
        put_joined(self.alloc, shelf, &mut bytes, pieces)?;
        self.files.put_file(name, bytes.bytes()?)?;
        Ok(())
    }

    /// Notes the files that the words name, as they are.
    pub fn note(&mut self, words: &[String]) -> Tried<()> {
        for word in words {
            if let Some(bytes) = self.files.file(word.as_str()) {
                self.noted.put_file(word.as_str(), bytes)?;
            }
        }
        Ok(())
    }

    /// Does the command. Tells the name, the status, and what was printed.
    pub fn run(&mut self, text: &mut Text, name: &[u8], words: &[String]) {
        let before = self.out.bytes().len();
        let status = run(
            self.alloc,
            words,
            &mut self.files,
            &mut self.keeper,
            &mut self.out,
        );
        text.put(name);
        text.put_count(b"| ", u64::from(status));
        text.put(behind(self.out.bytes(), before));
    }

    /// Tells of each file that one of the words names, and that isn't as it was noted: all that it
    /// holds, or the length and the SHA-256 of that.
    pub fn put_left(&self, text: &mut Text, words: &[String], is_whole: bool) {
        for word in words {
            if let Some(left) = self.files.file(word.as_str()) {
                if !self.is_noted(word.as_str(), left) {
                    put_left_file(text, word.as_bytes(), left, is_whole);
                }
            }
        }
    }

    /// Whether the named file was noted with these bytes.
    fn is_noted(&self, name: &str, bytes: &[u8]) -> bool {
        match self.noted.file(name) {
            Some(held) => held == bytes,
            None => false,
        }
    }
}

/// The bytes of the files with a plus between their names, one behind the other.
fn put_joined<S: Shelf>(
    alloc: Global,
    shelf: &mut S,
    bytes: &mut Text,
    pieces: &[u8],
) -> Tried<()> {
    let mut rest = pieces;
    for _ in 0..pieces.len() {
        if rest.is_empty() {
            return Ok(());
        }
        let (file, behind) = cut(rest, b'+');
        let piece = read_cases(alloc, shelf, text_in(file)?)?;
        bytes.put(piece.as_slice());
        rest = behind;
    }
    Ok(())
}

/// `left NAME` and what the file holds, or `left NAME LENGTH SHA-256`.
fn put_left_file(text: &mut Text, name: &[u8], left: &[u8], is_whole: bool) {
    text.put(b"left ");
    text.put(name);
    if is_whole {
        text.put(b"\n");
        text.put(left);
    } else {
        text.put_number(b" ", left.len() as u64);
        text.put_hex(b" ", &Sha256::digest(left));
        text.put(b"\n");
    }
}

/// The words behind the first.
pub fn behind_first(words: &[String]) -> &[String] {
    match words.split_first() {
        Some((_word, others)) => others,
        None => words,
    }
}
