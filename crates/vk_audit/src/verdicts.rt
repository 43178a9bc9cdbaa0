//! What is said of a verdict, and of files that give none.

ghost use Rattle.std.specs.Prelude.{◌≡◌, ℕ, IfOk, IsErrOf, IsOk, OnOk, Err};
ghost use Rattle.vk_judge.specs.Common.{Causes, MemoryWasWanting};
ghost use Rattle.vk_words.specs.Names.{extract_seen, verify_seen};
ghost use Rattle.vk_effect.specs.NamedFiles.{refused_said};
ghost use Rattle.vk_audit.specs.Verdicts.{IsOfFile, PartNames, fault_text, judged_said, name_in, name_of, reply_part, row_cause, same_said, unread_said, wire_cause};

use std::alloc::Global;
use vk_effect::{Said, missing, say_malformed, say_refused, too_long};
use vk_io::OutsideErr;
use vk_judge::{OneReply, Part, TwoReplies, VErr};
use vk_residue::NoMemory;
use vk_text::ShortText;
use vk_verifier::BoardVerdict;
use vk_wire::WireFault;

/// The names of an order's files, each by the part that it stands for.
pub trait NamedParts {
    ghost name_of: { Self → PartNames };

    /// The name of the file as it was given.
    fn name_of(&self, part: Part) -> &str
        ensures { result.now ≡ name_of self.now part };
}

impl NamedParts for OneReply<'_> {
    ghost name_of = { λ names. name_in (verify_seen names) };

    fn name_of(&self, part: Part) -> &str {
        match part {
            Part::Board => self.file,
            Part::Challenge | Part::SecondChallenge => self.challenge,
            Part::Reply | Part::SecondReply => self.reply,
        }
    }
}

impl NamedParts for TwoReplies<'_> {
    ghost name_of = { λ names. name_of (extract_seen names) };

    fn name_of(&self, part: Part) -> &str {
        match part {
            Part::Board => self.file,
            Part::Challenge => self.challenge1,
            Part::Reply => self.reply1,
            Part::SecondChallenge => self.challenge2,
            Part::SecondReply => self.reply2,
        }
    }
}

/// The second reply, or the first.
fn reply_part(second: bool) -> Part
    ensures { result ≡ reply_part second }
{
    if second {
        Part::SecondReply
    } else {
        Part::Reply
    }
}

/// Why a wire reads nothing.
fn fault_text(fault: WireFault) -> &'static str
    ensures { result.now ≡ fault_text fault }
{
    match fault {
        WireFault::Form => "form",
        WireFault::Digest { second: false } => "digest 0",
        WireFault::Digest { second: true } => "digest 1",
        WireFault::NotASet => "set",
    }
}

/// What is said of a reply whose wire of the lane reads nothing.
fn wire_refused(
    alloc: Global,
    reply: &str,
    lane: u32,
    wire: u32,
    fault: WireFault,
) -> Result<Said, NoMemory>
    ensures { IfOk result (λ said. said ≡ refused_said reply.now (wire_cause lane wire fault)) }
{
    let fault = fault_text(fault);
    let cause = format!(in alloc; "lane {lane} wire {wire} {fault}")?;
    let said = say_refused(alloc, reply, cause.as_str())?;
    Ok(said)
}

/// What is said of a reply whose row of the lane isn't met.
fn row_refused(alloc: Global, reply: &str, lane: u32, row: u32) -> Result<Said, NoMemory>
    ensures { IfOk result (λ said. said ≡ refused_said reply.now (row_cause lane row)) }
{
    let cause = format!(in alloc; "lane {lane} row {row}")?;
    let said = say_refused(alloc, reply, cause.as_str())?;
    Ok(said)
}

/// What is said of the verdict on the first reply, or on the second. That it is accepted takes no
/// memory.
pub fn say_verdict<N: NamedParts>(
    alloc: Global,
    names: &N,
    second: bool,
    verdict: BoardVerdict,
) -> Result<Said, NoMemory>
    ensures said { IfOk result
        (λ said. said ≡ judged_said (N.name_of names.now) second verdict) }
    ensures accepted { verdict ≡ BoardVerdict.Accepted → IsOk result }
{
    let board = names.name_of(Part::Board);
    let reply = names.name_of(reply_part(second));
    let said = match verdict {
        BoardVerdict::Accepted => Said::of_short(0, ShortText::new().word("accepted\n")),
        BoardVerdict::Malformed { part, line } => say_malformed(alloc, names.name_of(part), line)?,
        BoardVerdict::Price => say_refused(alloc, board, "price")?,
        BoardVerdict::Winner => say_refused(alloc, board, "winner")?,
        BoardVerdict::Lanes => say_refused(alloc, reply, "lanes")?,
        BoardVerdict::Wire { lane, wire, fault } => wire_refused(alloc, reply, lane, wire, fault)?,
        BoardVerdict::Row { lane, row } => row_refused(alloc, reply, lane, row)?,
    };
    Ok(said)
}

/// What is said of challenges that don't differ. Takes no memory.
pub fn same_challenge() -> Said
    ensures { result ≡ same_said }
{
    Said::of_short(7, ShortText::new().word("same challenge\n"))
}

/// What is said of the first file that is missing or too long, so that there is no verdict. A
/// failure is handed on.
#[tactic(auto, using(vk_judge::specs::Wanting::memory_was_wanting))]
pub fn unread<N: NamedParts>(alloc: Global, names: &N, fault: VErr) -> Result<Said, OutsideErr>
    ensures said { IfOk result (λ said. said ≡ unread_said (N.name_of names.now) fault) }
    ensures file { OnOk result (IsOfFile fault) }
    ensures wanting { IsErrOf result OutsideErr.NoMemory → MemoryWasWanting }
    ensures causes { (before after : ℕ) → Causes {T = Unit {0}} VErr.Failed (Err fault) before after
        → Causes OutsideErr.Failed result before after }
{
    let said = match fault {
        VErr::Missing(part) => missing(alloc, names.name_of(part))?,
        VErr::TooLong(part) => too_long(alloc, names.name_of(part))?,
        VErr::Failed => return Err(OutsideErr::Failed),
        VErr::NoMemory => return Err(OutsideErr::NoMemory),
    };
    Ok(said)
}
