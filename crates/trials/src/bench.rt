// Runs of the program over files in memory, and what is told of them.
use crate::asked::Asked;
use crate::parts::before_openings;
use std::alloc::Global;
use vk_app::run;
use vk_cases::{Text, Tried, behind, cut, lines_in, words_of};
use vk_effect::Said;
use vk_io::{MemShelf, MemSink, PieceShelf};
use vk_keeper::MemKeeper;

/// How many wires and rows a lane has.
#[derive(Clone, Copy)]
pub struct Sizes {
    pub wires: u32,
    pub rows: u32,
}

/// Files, the words of the last command over them, and what was printed. It is lent to all that is
/// tried over the files, and made and dropped in one place: what an error drops takes seconds to
/// prove.
#[derive(Drop)]
pub struct Bench {
    pub alloc: Global,
    pub shelf: PieceShelf,
    /// What is to be printed last.
    pub wanted: Text,
    line: Text,
    out: MemSink,
    /// How many bytes had been printed before what was printed last.
    printed: usize,
    /// What was printed last without its openings.
    bare: Text,
}

impl Bench {
    /// No files.
    pub fn new(alloc: Global) -> Bench {
        Bench {
            alloc,
            shelf: PieceShelf::over(MemShelf::new(alloc)),
            wanted: Text::new(alloc),
            line: Text::new(alloc),
            out: MemSink::new(alloc),
            printed: 0,
            bare: Text::new(alloc),
        }
    }

    /// Runs these words, and the names of what is asked and of the reply. Tells the words and the
    /// status.
    pub fn run_asked(&mut self, text: &mut Text, words: &[u8], asked: Asked) -> Tried<()> {
        self.line.clear();
        push_asked(&mut self.line, words, asked);
        self.run_line(text)
    }

    /// Runs these words. Tells them, and the status.
    pub fn run(&mut self, text: &mut Text, words: &[u8]) -> Tried<()> {
        self.line.clear();
        self.line.put(words);
        self.run_line(text)
    }

    fn run_line(&mut self, text: &mut Text) -> Tried<()> {
        self.printed = self.out.bytes().len();
        let line = self.line.bytes()?;
        let words = words_of(self.alloc, line)?;
        let status = status_over(self.alloc, words.as_slice(), &mut self.shelf, &mut self.out);
        text.put(line);
        text.put_count(b" | ", u64::from(status));
        Ok(())
    }

    /// Prints what is said.
    pub fn say(&mut self, said: &Said) -> Tried<()> {
        self.printed = self.out.bytes().len();
        said.print(&mut self.out)?;
        Ok(())
    }

    /// What was printed last.
    pub fn said(&self) -> &[u8] {
        behind(self.out.bytes(), self.printed)
    }

    /// Takes the openings out of what was printed last.
    pub fn strip(&mut self) {
        self.bare.clear();
        push_without_openings(&mut self.bare, behind(self.out.bytes(), self.printed));
    }

    /// What was left of it, where that isn't the text that is wanted.
    pub fn other_than_wanted(&self) -> Tried<Option<&[u8]>> {
        let bare = self.bare.bytes()?;
        Ok(if bare == self.wanted.bytes()? {
            None
        } else {
            Some(bare)
        })
    }

    /// The counts of the wires and rows in a lane, and of the lines of the files.
    pub fn push_lengths(&self, text: &mut Text, sizes: Sizes) {
        let files = self.shelf.inner();
        push_sizes(text, sizes);
        text.put_number(b" board ", lines_in(files, "board"));
        text.put_count(b" reply ", lines_in(files, Asked::Zeros.reply()));
    }
}

/// The counts of the wires and rows in a lane.
pub fn push_sizes(text: &mut Text, sizes: Sizes) {
    text.put_number(b" wires ", u64::from(sizes.wires));
    text.put_number(b" rows ", u64::from(sizes.rows));
}

/// These words, and the names of what is asked and of the reply.
fn push_asked(line: &mut Text, words: &[u8], asked: Asked) {
    line.put(words);
    line.put(b" ");
    line.put(asked.name().as_bytes());
    line.put(b" ");
    line.put(asked.reply().as_bytes());
}

/// The status of a command over no auction.
fn status_over(alloc: Global, words: &[String], shelf: &mut PieceShelf, out: &mut MemSink) -> u8 {
    let mut keeper = MemKeeper::new(alloc);
    run(alloc, words, shelf, &mut keeper, out)
}

/// The text of an extraction, each line as far as its openings.
fn push_without_openings(text: &mut Text, said: &[u8]) {
    let mut rest = said;
    for _ in 0..said.len() {
        if rest.is_empty() {
            return;
        }
        let (line, behind) = cut(rest, b'\n');
        text.put(before_openings(line));
        text.put(b"\n");
        rest = behind;
    }
}

/// The line of each value in a lane, behind that mark.
pub fn push_values(text: &mut Text, lane: u16, mark: &[u8], values: &[u64]) {
    let mut position = 0u32;
    for value in values {
        position = position.saturating_add(1);
        text.put_number(b"lane ", u64::from(lane));
        text.put_number(b" seat ", u64::from(seat_at(position)));
        text.put_count(mark, *value);
    }
}

/// The line of each seat, whose values are the same in all lanes.
pub fn push_same(text: &mut Text, values: &[u64]) {
    let mut position = 0u32;
    for _value in values {
        position = position.saturating_add(1);
        text.put_number(b"seat ", u64::from(seat_at(position)));
        text.put(b" same\n");
    }
}

/// The seat at a position, from 1: the last seat of all, then those before it.
pub fn seat_at(position: u32) -> u16 {
    u16::try_from(65536u32.saturating_sub(position)).unwrap_or(0)
}
