ghost use Rattle.std.specs.Prelude.{◌≡◌, ◌≢◌, ℕ, Option, Result, ◌+◌, ◌-◌, ◌^◌, ◌<◌, ◌≤◌, [], length, take, drop, min, Ok, option_map, ok_or, IsSome, IfSome, IfOk, OnErr};
ghost use Rattle.std.specs.FinMap as map;
ghost use Rattle.hex.specs.Hex.{IsBytes};
ghost use Rattle.vk_io.specs.Faults.{Causes, MayCause};
ghost use Rattle.vk_io.specs.Files.{Files, bytes_of, part_of};
ghost use Rattle.vk_io.specs.declared.errors.OutsideErr.{OutsideErr};
ghost use Rattle.vk_lines.specs.Tokens.{word_of, number_line, id_line};
ghost use Rattle.vk_lines.specs.Buffers.{HasLooked, OnlyAsks, after_step};
ghost use Rattle.vk_lines.specs.Lines.{Starts, KeepsFile, IsBefore, IsBegun, IsBegunBy, refusal_of, GivesReading, Reads, ReadsFreely, IsNext, LinesValue, OnlyReads, line_by, text_at, rest_of, unread, feed_at, step_by, step_of, none_left, value_at, is_text, is_end, answer_by, end_at};

use crate::buffer::{Buffer, MOST_LINE};
use crate::cutting::read_word;
use crate::errors::{MOST_BYTES, ReadErr, StartErr};
use crate::step::Step;
use crate::tokens::{read_id, read_number};
use memchr::memchr;
use std::alloc::Global;
use std::marker::Model;
use vk_io::{OutsideErr, Shelf};

/// A reader of a file's lines, one after another from the first.
#[derive(Drop)]
pub struct Lines {
    name: String,
    size: u64,
    at: u64,
    taken: u64,
    buffer: Buffer,
}

impl Model for Lines {
    ghost use Rattle.std.specs.Prelude.{◌+◌, ◌^◌, ◌≤◌, length, string_bytes};
    ghost use Rattle.vk_lines.specs.Lines.{LinesValue};

    ghost Value = { LinesValue };

    ghost view = { λ l. record {
      name = string_bytes l.name;
      size = l.size;
      at = l.at;
      taken = l.taken;
      ahead = l.buffer.ahead;
      text = l.buffer.text;
    } };

    ghost invariant = { λ l. record {
      within : l.at + length l.buffer.ahead ≤ l.size;
      small : l.size ≤ 2 ^ 30;
      fewer : l.taken ≤ l.at;
    } };
}

impl Lines {
    /// Starts before the first line of the named file. The file's length is told here, and no more
    /// bytes than that are read. Errs where the file isn't held or has more than 2^30 bytes, where
    /// the shelf fails, and for want of memory.
    pub fn start<S: Shelf>(alloc: Global, shelf: &mut S, name: &str) -> Result<Lines, StartErr>
        ensures modelled { IfSome (S.held shelf.old) (λ files. Starts files name.now result) }
        ensures begun { (told : Result (Option ℕ) OutsideErr)
            × S.Shelf.length_gives shelf.old name.now told shelf.new × IsBegunBy told result }
        ensures before { IfOk result (IsBefore name.now) }
        ensures free { IfSome (S.held shelf.old) (λ files.
            IsSome (refusal_of (option_map length (map.get files name.now)))
            → Causes StartErr.NoMemory result (S.Shelf.wants shelf.old) (S.Shelf.wants shelf.new)) }
        ensures shelf { OnlyReads S.held S.Shelf.faults StartErr.Failed result shelf.old shelf.new }
        ensures wants { MayCause StartErr.NoMemory result (S.Shelf.wants shelf.old)
            (S.Shelf.wants shelf.new) }
    {
        let told = shelf.length(name)?;
        let lines = Lines::before_first(alloc, name, told)?;
        Ok(lines)
    }

    /// Before the first line of a file of this length, as a shelf tells it. Errs as
    /// [`Lines::start`] does where the shelf does not fail.
    pub fn before_first(alloc: Global, name: &str, told: Option<u64>) -> Result<Lines, StartErr>
        ensures started { (files : Files) → told ≡ option_map length (map.get files name.now)
            → Starts files name.now result }
        ensures before { IfOk result (IsBefore name.now) }
        ensures exact { IsBegun told result }
    {
        let size = told.ok_or(StartErr::Missing)?;
        if size > MOST_BYTES {
            return Err(StartErr::TooLong);
        }
        let name = String::from_str(alloc, name)?;
        Ok(Lines {
            name,
            size,
            at: 0,
            taken: 0,
            buffer: Buffer::new(),
        })
    }

    /// Takes the next line, where one stands there. After a refusal the value is as before.
    pub fn next_line<S: Shelf>(&mut self, shelf: &mut S) -> Result<Step, OutsideErr>
        ensures modelled { IfSome (S.held shelf.old)
            (λ files. IfOk result (λ step. IsNext step self.old self.new files)) }
        ensures file { KeepsFile self.old self.new }
        ensures same { IfOk result (λ step. step ≢ Step.Text → self.new.taken ≡ self.old.taken) }
        ensures text { IfOk result (λ step. step ≢ Step.Text → self.new.text ≡ self.old.text) }
        ensures taken { IfOk result
            (λ step. step ≡ Step.Text → self.new.taken ≡ self.old.taken + 1) }
        ensures within { unread self.new ≤ self.new.size }
        ensures refused { OnErr result (self.new ≡ self.old) }
        ensures asks { OnlyAsks S.held S.Shelf.faults S.Shelf.wants result shelf.old shelf.new }
    {
        self.look_ahead(shelf)?;
        let step = self.take_next();
        Ok(step)
    }

    /// Reads on where fewer bytes are ahead than a line may have.
    fn look_ahead<S: Shelf>(&mut self, shelf: &mut S) -> Result<(), OutsideErr>
        ensures modelled { IfSome (S.held shelf.old)
            (λ files. IfOk result (λ _. HasLooked self.old self.new files)) }
        ensures file { KeepsFile self.old self.new }
        ensures taken { self.new.taken ≡ self.old.taken }
        ensures text { self.new.text ≡ self.old.text }
        ensures within { unread self.new ≤ self.new.size }
        ensures refused { OnErr result (self.new ≡ self.old) }
        ensures asks { OnlyAsks S.held S.Shelf.faults S.Shelf.wants result shelf.old shelf.new }
    {
        let at = self.unread();
        let left = self.bytes_left();
        self.buffer.read_on(shelf, &self.name, at, left)?;
        Ok(())
    }

    /// The place of the first byte that was not yet read.
    fn unread(&self) -> u64
        ensures { result ≡ unread self.now }
    {
        self.at + self.buffer.ahead().len() as u64
    }

    /// How many bytes were not yet read.
    fn bytes_left(&self) -> u64
        ensures { result ≡ self.now.size - unread self.now }
    {
        self.size - self.unread()
    }

    /// Takes the line that begins the bytes ahead, where they show what stands next.
    fn take_next(&mut self) -> Step
        ensures same { result ≢ Step.Text → self.new ≡ self.old }
        ensures taken { result ≡ Step.Text → self.new.taken ≡ self.old.taken + 1 }
        ensures file { KeepsFile self.old self.new }
        ensures within { unread self.new ≤ self.new.size }
        ensures next { (files : Files) (before : LinesValue) → HasLooked before self.old files
            → IsNext result before self.new files }
    {
        let step = self.take_line();
        step
    }

    /// Takes the line that begins the bytes ahead, where they hold one.
    fn take_line(&mut self) -> Step
        ensures step { result ≡ step_of self.old.ahead }
        ensures taken { self.new ≡ after_step (step_of self.old.ahead) self.old }
        ensures within { unread self.new ≤ self.new.size }
    {
        let ahead = self.buffer.ahead();
        let feed = feed_place(ahead);
        let step = step_by(feed, ahead.len());
        if step == Step::Text {
            self.buffer.take(feed);
            self.at += feed as u64 + 1;
            self.taken += 1;
        }
        step
    }

    /// What is left for a reader depends on the bytes of its own file alone, whatever other files
    /// hold.
    #[tactic(auto, unfolding(crate::specs::Lines::rest_of))]
    pub fn rests_on_its_file(&self)
        ensures { (one : Files) (other : Files)
            → bytes_of one self.now.name ≡ bytes_of other self.now.name
            → rest_of self.now one ≡ rest_of self.now other }
    {}

    /// No reader goes past the length that it was told of its file, which is at most 2^30.
    pub fn stays_within_its_file(&self)
        ensures within { unread self.now ≤ self.now.size }
        ensures small { self.now.size ≤ 2 ^ 30 }
        ensures fewer { self.now.taken ≤ self.now.at }
    {
        let _ = &self.size;
    }

    /// Takes the next line. Malformed, with that line's number, where it isn't there or has no line
    /// feed within 256 bytes.
    pub fn read_text<S: Shelf>(&mut self, shelf: &mut S) -> Result<(), ReadErr>
        ensures modelled { IfSome (S.held shelf.old) (λ files.
            GivesReading (λ _. self.new.text) result (rest_of self.new files)
            (text_at (rest_of self.old files))) }
        ensures file { KeepsFile self.old self.new }
        ensures shelf { OnlyReads S.held S.Shelf.faults ReadErr.Failed result shelf.old shelf.new }
        ensures wants { Causes ReadErr.NoMemory result (S.Shelf.wants shelf.old)
            (S.Shelf.wants shelf.new) }
    {
        let before = self.number();
        let step = self.next_line(shelf)?;
        let found = line_found(step, before);
        found
    }

    /// The value of the line last taken; Malformed, with its number, where it has none.
    #[tactic(auto, unfolding(crate::specs::Lines::rest_of, crate::specs::Lines::rest_in))]
    pub fn require<X>(&self, value: Option<X>) -> Result<X, ReadErr>
        ensures exact { result ≡ ok_or value (ReadErr.Malformed self.now.taken) }
        ensures modelled { (files : Files)
            → GivesReading (λ x. x) result (rest_of self.now files)
            (value_at value (rest_of self.now files)) }
    {
        value.ok_or(ReadErr::Malformed { line: self.taken })
    }

    /// Reads the line `end`, after which no byte stands. Malformed with the number of the first
    /// line that isn't so.
    #[tactic(auto, unfolding(crate::specs::Lines::end_at, crate::specs::Lines::line_by))]
    pub fn read_end<S: Shelf>(&mut self, shelf: &mut S) -> Result<(), ReadErr>
        ensures reads { ReadsFreely end_at S.held S.Shelf.faults S.Shelf.wants
            self.old self.new shelf.old shelf.new result }
    {
        self.read_text(shelf)?;
        self.require(read_word(self.text(), b"end"))?;
        let before = self.number();
        let step = self.next_line(shelf)?;
        let ended = nothing_left(step, before);
        ended
    }

    /// Reads a line that is this text. Malformed, with its number, where the next line is another.
    #[tactic(auto, unfolding(crate::specs::Lines::line_by))]
    pub fn read_fixed<S: Shelf>(&mut self, shelf: &mut S, line: &[u8]) -> Result<(), ReadErr>
        ensures reads { ReadsFreely (line_by (word_of line.now)) S.held S.Shelf.faults S.Shelf.wants
            self.old self.new shelf.old shelf.new result }
    {
        self.read_text(shelf)?;
        let value = self.require(read_word(self.text(), line));
        value
    }

    /// Reads a line of this word and a number from `least` to `most`. Malformed, with its number,
    /// where the next line is another.
    #[tactic(auto, unfolding(crate::specs::Lines::line_by))]
    pub fn read_number<S: Shelf>(
        &mut self,
        shelf: &mut S,
        word: &[u8],
        least: u64,
        most: u64,
    ) -> Result<u64, ReadErr>
        ensures reads { ReadsFreely (line_by (number_line word.now least most))
            S.held S.Shelf.faults S.Shelf.wants self.old self.new shelf.old shelf.new result }
        ensures within { IfOk result (λ number. (least ≤ number) × (number ≤ most)) }
    {
        self.read_text(shelf)?;
        let value = self.require(read_number(self.text(), word, least, most));
        value
    }

    /// Reads a line of this word and an id. Malformed, with its number, where the next line is
    /// another.
    #[tactic(auto, unfolding(crate::specs::Lines::line_by))]
    pub fn read_id<S: Shelf>(&mut self, shelf: &mut S, word: &[u8]) -> Result<[u8; 16], ReadErr>
        ensures reads { ReadsFreely (line_by (id_line word.now)) S.held S.Shelf.faults S.Shelf.wants
            self.old self.new shelf.old shelf.new result }
        ensures bytes { IfOk result (λ id. (length id ≡ 16) × IsBytes id) }
    {
        self.read_text(shelf)?;
        let value = self.require(read_id(self.text(), word));
        value
    }

    /// The line last taken, without its line feed; empty before the first.
    pub fn text(&self) -> &[u8]
        ensures { result.now ≡ self.now.text }
    {
        self.buffer.text()
    }

    /// How many lines were taken.
    pub fn number(&self) -> u64
        ensures count { result ≡ self.now.taken }
        ensures small { result ≤ 2 ^ 30 }
    {
        self.taken
    }
}

/// Where the first line feed stands, or the number of bytes where there is none.
fn feed_place(bytes: &[u8]) -> usize
    ensures { result ≡ feed_at bytes.now }
{
    match memchr(b'\n', bytes) {
        Some(feed) => feed,
        None => bytes.len(),
    }
}

/// What stands next, by where the first line feed stands among how many bytes: 256 of them, or all.
fn step_by(feed: usize, count: usize) -> Step
    ensures { result ≡ step_by feed count }
{
    if feed < count && feed < MOST_LINE {
        Step::Text
    } else if count == 0 {
        Step::End
    } else if count < MOST_LINE {
        Step::Cut
    } else {
        Step::Long
    }
}

/// Whether a line was taken, after so many before.
fn line_found(step: Step, before: u64) -> Result<(), ReadErr>
    requires { before ≤ 2 ^ 30 }
    ensures modelled { (files : Files) (old new : LinesValue) → before ≡ old.taken
        → IsNext step old new files
        → GivesReading (λ _. new.text) result (rest_of new files) (text_at (rest_of old files)) }
    ensures exact { result ≡ answer_by (is_text step) before }
{
    match step {
        Step::Text => Ok(()),
        Step::End | Step::Long | Step::Cut => Err(ReadErr::Malformed { line: before + 1 }),
    }
}

/// Whether the file has ended, after so many lines.
fn nothing_left(step: Step, before: u64) -> Result<(), ReadErr>
    requires { before ≤ 2 ^ 30 }
    ensures modelled { (files : Files) (old new : LinesValue) → before ≡ old.taken
        → IsNext step old new files
        → GivesReading (λ x. x) result (rest_of new files) (none_left (rest_of old files)) }
    ensures exact { result ≡ answer_by (is_end step) before }
{
    let answer = end_answer(step, before);
    answer
}

/// What a step that should be the end comes to, after so many lines.
fn end_answer(step: Step, before: u64) -> Result<(), ReadErr>
    requires { before ≤ 2 ^ 30 }
    ensures { result ≡ answer_by (is_end step) before }
{
    match step {
        Step::End => Ok(()),
        Step::Text | Step::Long | Step::Cut => Err(ReadErr::Malformed { line: before + 1 }),
    }
}
