//! An auditor's command over a shelf of files.

ghost use Rattle.std.specs.Prelude.{IfSome, IsErrOf};
ghost use Rattle.vk_judge.specs.Common.{Gives, MemoryWasWanting, OnlyReads};
ghost use Rattle.vk_bids.specs.Confrontation.{fault_of};
ghost use Rattle.vk_words.specs.Names.{confront_seen, verify_seen};
ghost use Rattle.vk_audit.specs.Audits.{SaysOf, audit_of};
ghost use Rattle.vk_audit.specs.Confrontations.{confrontation_in};
ghost use Rattle.vk_audit.specs.Reports.{report_said};
ghost use Rattle.vk_audit.specs.Verdicts.{verify_said};

use crate::confrontations::confront_answered;
use crate::extractions::extract_answered;
use crate::reports::{say_report, say_report_fault};
use crate::verdicts::{say_verdict, unread};
use std::alloc::Global;
use vk_bids::{ConfrontErr, Confrontation, SecretAndReplies, confront, extract};
use vk_effect::Said;
use vk_io::{OutsideErr, Shelf};
use vk_judge::{OneReply, VErr};
use vk_report::read_report;
use vk_verifier::verdict;
use vk_words::{AuditOrder, ConfrontNames};

/// Reads the named files, and says what they come to.
pub fn audit<S: Shelf>(
    alloc: Global,
    shelf: &mut S,
    audit: &AuditOrder<'_>,
) -> Result<Said, OutsideErr>
    ensures { SaysOf S.held S.Shelf.faults (audit_of audit.now) result shelf.old shelf.new }
{
    match audit {
        AuditOrder::Verify(names) => {
            let said = say_verified(alloc, shelf, names)?;
            Ok(said)
        }
        AuditOrder::Extract(names) => {
            let answer = extract(alloc, shelf, names);
            let said = extract_answered(alloc, names, answer);
            said
        }
        AuditOrder::Confront(names) => {
            let answer = confronted_in(alloc, shelf, names);
            let said = confront_answered(alloc, names, answer);
            said
        }
        AuditOrder::Report(board) => {
            let said = report_told(alloc, shelf, board)?;
            Ok(said)
        }
    }
}

/// What is said of one reply.
#[tactic(auto, using(vk_judge::specs::Wanting::memory_was_wanting))]
fn say_verified<S: Shelf>(
    alloc: Global,
    shelf: &mut S,
    names: &OneReply<'_>,
) -> Result<Said, OutsideErr>
    ensures { SaysOf S.held S.Shelf.faults (λ files. verify_said files (verify_seen names.now))
        result shelf.old shelf.new }
{
    let said = match verdict(alloc, shelf, names.file, names.challenge, names.reply) {
        Ok(verdict) => say_verdict(alloc, names, false, verdict)?,
        Err(fault) => unread(alloc, names, fault)?,
    };
    Ok(said)
}

/// What is said of a board alone.
#[tactic(auto, using(vk_judge::specs::Wanting::memory_was_wanting))]
fn report_told<S: Shelf>(alloc: Global, shelf: &mut S, board: &str) -> Result<Said, OutsideErr>
    ensures { SaysOf S.held S.Shelf.faults (λ files. report_said files board.now) result shelf.old
        shelf.new }
{
    let said = match read_report(alloc, shelf, board) {
        Ok(report) => say_report(alloc, &report)?,
        Err(fault) => say_report_fault(alloc, board, fault)?,
    };
    Ok(said)
}

/// What the secret comes to against the two replies.
fn confronted_in<S: Shelf>(
    alloc: Global,
    shelf: &mut S,
    names: &ConfrontNames<'_>,
) -> Result<Confrontation, ConfrontErr>
    ensures modelled { IfSome (S.held shelf.old) (λ files.
        Gives fault_of (λ confrontation. confrontation) result
        (confrontation_in files (confront_seen names.now))) }
    ensures wanting { IsErrOf result (ConfrontErr.Unread VErr.NoMemory) → MemoryWasWanting }
    ensures shelf { OnlyReads S.held S.Shelf.faults (ConfrontErr.Unread VErr.Failed) result
        shelf.old shelf.new }
{
    let files = SecretAndReplies {
        replies: names.replies,
        secret: names.secret,
    };
    let answer = confront(alloc, shelf, &files);
    answer
}
