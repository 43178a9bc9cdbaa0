// Files by their names, each from its first line on.
ghost use Rattle.std.specs.Prelude.{◌≡◌, ℕ, List, IfSome, IsErrOf};
ghost use Rattle.std.specs.FinMap as map;
ghost use Rattle.vk_lines.specs.Common.{Causes, Files, Gives, OnlyReads, Starts, rest_of};
ghost use Rattle.vk_judge.specs.Begun.{begun_file, of_attempt, of_begun, three_rests, unread_file};
ghost use Rattle.vk_judge.specs.Wanting.{MemoryWasWanting};
ghost use Rattle.vk_judge.specs.Two.{of_two};
ghost use Rattle.vk_judge.specs.Begun.{five_rests, named_rests};
ghost use Rattle.vk_judge.specs.Answers.{begun_answer};

use crate::answers::{Part, VErr};
use crate::stage::{Attempt, FileAndReply, TwoAttempts, TwoReaders};
use std::alloc::Global;
use vk_io::Shelf;
use vk_lines::{Lines, StartErr};

/// The names of a file, of a challenge and of the reply to it.
#[derive(Clone, Copy, Debug)]
pub struct OneReply<'a> {
    pub file: &'a str,
    pub challenge: &'a str,
    pub reply: &'a str,
}

/// The names of the files of a file, and of two challenges with the replies to them.
#[derive(Clone, Copy, Debug)]
pub struct TwoReplies<'a> {
    pub file: &'a str,
    pub challenge1: &'a str,
    pub reply1: &'a str,
    pub challenge2: &'a str,
    pub reply2: &'a str,
}

/// A file from its first line on, or why it was not begun.
fn begun_file(part: Part, started: Result<Lines, StartErr>) -> Result<Lines, VErr>
    ensures exact { result ≡ begun_answer part started }
    ensures modelled { (files : Files) (name : List ℕ) → Starts files name started
        → Gives unread_file (λ lines. rest_of lines files) result
        (begun_file part (map.get files name)) }
    ensures causes { (before : ℕ) (after : ℕ) → Causes StartErr.Failed started before after
        → Causes VErr.Failed result before after }
{
    match started {
        Ok(lines) => Ok(lines),
        Err(StartErr::Missing) => Err(VErr::Missing(part)),
        Err(StartErr::TooLong) => Err(VErr::TooLong(part)),
        Err(StartErr::Failed) => Err(VErr::Failed),
        Err(StartErr::NoMemory) => Err(VErr::NoMemory),
    }
}

/// Begins to read the named file.
#[tactic(auto, using(crate::specs::Wanting::memory_was_wanting))]
fn begin<S: Shelf>(alloc: Global, shelf: &mut S, name: &str, part: Part) -> Result<Lines, VErr>
    ensures modelled { IfSome (S.held shelf.old) (λ files.
        Gives unread_file (λ lines. rest_of lines files) result
        (begun_file part (map.get files name.now))) }
    ensures wanting { IsErrOf result VErr.NoMemory → MemoryWasWanting }
    ensures shelf { OnlyReads S.held S.Shelf.faults VErr.Failed result shelf.old shelf.new }
{
    let started = Lines::start(alloc, shelf, name);
    let lines = begun_file(part, started);
    lines
}

impl OneReply<'_> {
    /// Begins to read the files. Errs where one is missing or longer than 2^30 bytes, and names the
    /// first that is; where the shelf fails; and for want of memory.
    pub fn begin<S: Shelf>(&self, alloc: Global, shelf: &mut S) -> Result<Attempt, VErr>
        ensures modelled { IfSome (S.held shelf.old)
            (λ files. Gives unread_file (λ attempt. of_begun three_rests attempt files) result
            (of_attempt three_rests files self.now.file.now self.now.challenge.now
            self.now.reply.now)) }
        ensures shelf { OnlyReads S.held S.Shelf.faults VErr.Failed result shelf.old shelf.new }
    {
        let file = begin(alloc, shelf, self.file, Part::Board)?;
        let challenge = begin(alloc, shelf, self.challenge, Part::Challenge)?;
        let reply = begin(alloc, shelf, self.reply, Part::Reply)?;
        let pair = FileAndReply { file, reply };
        Ok(Attempt { challenge, pair })
    }
}

impl TwoReplies<'_> {
    /// Begins to read the files. Errs as for one challenge.
    pub fn begin<S: Shelf>(&self, alloc: Global, shelf: &mut S) -> Result<TwoAttempts, VErr>
        ensures modelled { IfSome (S.held shelf.old)
            (λ files. Gives unread_file (λ two. of_two five_rests two files) result
            (named_rests files self.now)) }
        ensures wanting { IsErrOf result VErr.NoMemory → MemoryWasWanting }
        ensures shelf { OnlyReads S.held S.Shelf.faults VErr.Failed result shelf.old shelf.new }
    {
        let file = begin(alloc, shelf, self.file, Part::Board)?;
        let first_challenge = begin(alloc, shelf, self.challenge1, Part::Challenge)?;
        let reply = begin(alloc, shelf, self.reply1, Part::Reply)?;
        let second_challenge = begin(alloc, shelf, self.challenge2, Part::SecondChallenge)?;
        let second = begin(alloc, shelf, self.reply2, Part::SecondReply)?;
        let pair = FileAndReply { file, reply };
        let readers = TwoReaders { pair, second };
        Ok(TwoAttempts {
            first_challenge,
            second_challenge,
            readers,
        })
    }
}
