// What the steps work on.
use crate::counts::Counts;
use crate::numbers::Numbers;
use crate::parts::{lines_between, push_with_line};
use crate::watched::{WatchedFiles, WatchedSink};
use std::alloc::Global;
use vk_app::run;
use vk_cases::{Text, Tried, cut, words_of};
use vk_io::MemSink;
use vk_keeper::MemKeeper;

/// The most bytes that are told of what came otherwise.
const MOST_TOLD: usize = 1 << 20;

/// A file as it was before a line of it was changed.
#[derive(Drop)]
struct Replaced {
    name: Vec<u8>,
    bytes: Vec<u8>,
}

/// Numbers, files and auctions, the text that is made, and what was said last.
#[derive(Drop)]
pub struct Stage {
    pub alloc: Global,
    pub numbers: Numbers,
    pub files: WatchedFiles,
    pub keeper: MemKeeper,
    /// The text that is made.
    pub text: Text,
    /// What the last command printed.
    pub printed: Vec<u8>,
    pub counts: Counts,
    /// What came otherwise than it has to.
    pub told: Text,
    /// How often something was put that isn't one line.
    torn: u64,
    replaced: Vec<Replaced>,
    /// The file that is changed, or the name of what is counted.
    scratch: Text,
}

impl Stage {
    /// No files, and a house that knows nothing.
    pub fn new(alloc: Global) -> Stage {
        Stage {
            alloc,
            numbers: Numbers::new(),
            files: WatchedFiles::new(alloc),
            keeper: MemKeeper::new(alloc),
            text: Text::new(alloc),
            printed: Vec::new(alloc),
            counts: Counts::new(alloc),
            told: Text::new(alloc),
            torn: 0,
            replaced: Vec::new(alloc),
            scratch: Text::new(alloc),
        }
    }

    /// The house knows nothing again.
    pub fn forget(&mut self) {
        self.keeper = MemKeeper::new(self.alloc);
    }

    /// Makes the named file hold the text, and begins another one.
    pub fn save(&mut self, name: &[u8]) -> Tried<()> {
        self.files.put(name, self.text.bytes()?)?;
        self.text.clear();
        Ok(())
    }

    /// Appends these lines of the named file to the text, counted from 1.
    pub fn copy(&mut self, name: &[u8], from: u64, to: u64) -> Tried<()> {
        let lines = lines_between(self.files.file(name)?, from, to);
        self.text.put(lines);
        Ok(())
    }

    /// Has the text, which is some lines, in place of a line of the named file, until the next run
    /// is over.
    pub fn change(&mut self, name: &[u8], number: u64) -> Tried<()> {
        let file = self.files.file(name)?;
        self.replaced.push(as_it_is(self.alloc, name, file)?)?;
        self.scratch.clear();
        push_with_line(&mut self.scratch, file, number, self.text.bytes()?);
        self.files.put(name, self.scratch.bytes()?)?;
        self.text.clear();
        Ok(())
    }

    /// Runs the command of these words. Answers its status. Then all is put back that was changed.
    pub fn run(&mut self, command: &[u8]) -> Tried<u8> {
        let words = words_of(self.alloc, command)?;
        let mut out = WatchedSink {
            inner: MemSink::new(self.alloc),
            torn: 0,
        };
        let status = run(
            self.alloc,
            words.as_slice(),
            &mut self.files,
            &mut self.keeper,
            &mut out,
        );
        let ended = self.end(command, status, &out);
        ended
    }

    /// Ends the run of a command, which is counted, and puts back all that was changed.
    fn end(&mut self, command: &[u8], status: u8, out: &WatchedSink) -> Tried<u8> {
        self.torn = self.torn.saturating_add(out.torn);
        self.printed.clear();
        self.printed.extend_from_slice(out.inner.bytes())?;
        self.files.end();
        put_back(&mut self.files, self.replaced.as_slice())?;
        self.replaced.clear();
        self.count(command, u64::from(status))?;
        Ok(status)
    }

    /// Counts a command that ended so.
    fn count(&mut self, command: &[u8], status: u64) -> Tried<()> {
        let (word, _words) = cut(command, b' ');
        self.scratch.clear();
        self.scratch.put(b"runs of ");
        self.scratch.put(word);
        self.scratch.put_number(b" to status ", status);
        self.counts.add(self.scratch.bytes()?)
    }

    /// Tells of a command that ended with another status, or printed another text, than it has to,
    /// and begins another text.
    pub fn judge(&mut self, step: &[u8], wanted: u64, status: u64) -> Tried<()> {
        if status != wanted {
            self.told.put_number(b"", status);
            self.told.put(b" ");
            self.told.put_line(step);
        }
        compare(
            &mut self.told,
            step,
            self.printed.as_slice(),
            self.text.bytes()?,
        );
        self.text.clear();
        Ok(())
    }

    /// Tells of a file that holds another text than it has to, and begins another text.
    pub fn holds(&mut self, step: &[u8], name: &[u8]) -> Tried<()> {
        let held = self.files.file(name)?;
        compare(&mut self.told, step, held, self.text.bytes()?);
        self.text.clear();
        Ok(())
    }

    /// Tells how many of each were tried.
    pub fn sum_up(&mut self) {
        self.counts.push(&mut self.told);
        let strange = b"names looked at that the words don't have ";
        self.told.put_count(strange, self.files.strange);
        let torn = b"pieces printed that aren't one line ";
        self.told.put_count(torn, self.torn);
    }
}

/// The file as it is.
fn as_it_is(alloc: Global, name: &[u8], file: &[u8]) -> Tried<Replaced> {
    let name = Vec::from_slice(alloc, name)?;
    let bytes = Vec::from_slice(alloc, file)?;
    Ok(Replaced { name, bytes })
}

/// Tells that a step came to this, where it isn't that.
fn compare(told: &mut Text, step: &[u8], came: &[u8], wanted: &[u8]) {
    if came == wanted || MOST_TOLD < told.len() {
        return;
    }
    told.put_line(step);
    told.put(b"came to:\n");
    told.put(came);
    told.put(b"and not to:\n");
    told.put_line(wanted);
}

/// Has each file as it was before its first change.
fn put_back(files: &mut WatchedFiles, replaced: &[Replaced]) -> Tried<()> {
    let mut rest = replaced;
    for _ in 0..replaced.len() {
        let Some((file, before)) = rest.split_last() else {
            return Ok(());
        };
        files.put(file.name.as_slice(), file.bytes.as_slice())?;
        rest = before;
    }
    Ok(())
}
