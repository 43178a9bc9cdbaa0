//! What is said of what a bidder's secret comes to against two replies to a board.

ghost use Rattle.std.specs.Prelude.{◌≡◌, ℕ, Err, IfOk, IsErrOf, IsOk, Ok, OnOk, Result};
ghost use Rattle.vk_audit.specs.Confrontations.{IsOfNamedFile, NamesNoFile, confrontation_said, confront_unread_said};
ghost use Rattle.vk_audit.specs.Verdicts.{answer_said};
ghost use Rattle.vk_commit.specs.Commitment.{TwoOpeningsSeen};
ghost use Rattle.vk_judge.specs.Common.{Causes, Gives, MemoryWasWanting};
ghost use Rattle.vk_bids.specs.declared.confrontation.ConfrontErr.{ConfrontErr};
ghost use Rattle.vk_bids.specs.declared.confrontation.Confrontation.{Confrontation};
ghost use Rattle.vk_bids.specs.Confrontation.{fault_of};
ghost use Rattle.vk_bids.specs.ConfrontTexts.{confrontation_text};
ghost use Rattle.vk_bids.specs.Texts.{clash_text};
ghost use Rattle.vk_words.specs.Names.{confront_seen};
ghost use Rattle.vk_effect.specs.Effects.{IsCommandEnd};

use crate::verdicts::{same_challenge, say_verdict, unread};
use std::alloc::Global;
use vk_bids::{ConfrontErr, Confrontation, confrontation_line};
use vk_effect::{Said, missing, say_malformed, too_long};
use vk_io::{OutsideErr, Shelf};
use vk_judge::VErr;
use vk_residue::NoMemory;
use vk_words::ConfrontNames;

/// The line of a confrontation, with that status.
fn say_confrontation_line(status: u8, confrontation: &Confrontation) -> Said
    requires { IsCommandEnd status }
    ensures { result ≡ record { status = status; text = confrontation_text confrontation.now } }
{
    Said::of_short(status, confrontation_line(confrontation))
}

/// What is said of a reply that isn't accepted, or of what the secret comes to against two accepted
/// replies. Only a line that names a file takes memory.
pub fn say_confrontation(
    alloc: Global,
    names: &ConfrontNames<'_>,
    confrontation: &Confrontation,
) -> Result<Said, NoMemory>
    ensures no_file { NamesNoFile confrontation.now → IsOk result }
    ensures said { IfOk result
        (λ said. said ≡ confrontation_said (confront_seen names.now) confrontation.now) }
    ensures clash { (two : TwoOpeningsSeen) → confrontation.now ≡ Confrontation.Clash two
        → result ≡ Ok (record { status = 3; text = clash_text two }) }
{
    let replies = &names.replies;
    match confrontation {
        Confrontation::Refused { second, verdict } => {
            let said = say_verdict(alloc, replies, *second, *verdict)?;
            Ok(said)
        }
        Confrontation::Same => Ok(same_challenge()),
        Confrontation::Malformed { line } => {
            let said = say_malformed(alloc, names.secret, *line)?;
            Ok(said)
        }
        Confrontation::NoSeal { seat: _ } => Ok(say_confrontation_line(8, confrontation)),
        Confrontation::Mismatch(_) => Ok(say_confrontation_line(8, confrontation)),
        Confrontation::Clash(_) => Ok(say_confrontation_line(3, confrontation)),
        Confrontation::Held { seat: _ } => Ok(say_confrontation_line(0, confrontation)),
    }
}

/// What is said of the first file that is missing or too long. A failure is handed on.
pub fn confront_unread(
    alloc: Global,
    names: &ConfrontNames<'_>,
    fault: ConfrontErr,
) -> Result<Said, OutsideErr>
    ensures said { IfOk result
        (λ said. said ≡ confront_unread_said (confront_seen names.now) fault) }
    ensures file { OnOk result (IsOfNamedFile fault) }
    ensures causes { (before after : ℕ)
        → Causes {T = Unit {0}} (ConfrontErr.Unread VErr.Failed) (Err fault) before after
        → Causes OutsideErr.Failed result before after }
{
    let said = match fault {
        ConfrontErr::Unread(fault) => unread(alloc, &names.replies, fault)?,
        ConfrontErr::MissingSecret => missing(alloc, names.secret)?,
        ConfrontErr::TooLongSecret => too_long(alloc, names.secret)?,
    };
    Ok(said)
}

/// What is said of what the files came to, or of the first that is missing or too long. A failure
/// is handed on.
#[tactic(auto, using(vk_judge::specs::Wanting::memory_was_wanting))]
pub fn confront_answered(
    alloc: Global,
    names: &ConfrontNames<'_>,
    answer: Result<Confrontation, ConfrontErr>,
) -> Result<Said, OutsideErr>
    ensures clash { (two : TwoOpeningsSeen) → answer ≡ Ok (Confrontation.Clash two)
        → result ≡ Ok (record { status = 3; text = clash_text two }) }
    ensures said { (expected : Result Confrontation ConfrontErr)
        → Gives fault_of (λ confrontation. confrontation) answer expected
        → IfOk result (λ said. said
        ≡ answer_said (confrontation_said (confront_seen names.now))
        (confront_unread_said (confront_seen names.now)) expected) }
    ensures wanting { IsErrOf result OutsideErr.NoMemory → MemoryWasWanting }
    ensures causes { (before after : ℕ)
        → Causes (ConfrontErr.Unread VErr.Failed) answer before after
        → Causes OutsideErr.Failed result before after }
{
    match answer {
        Err(fault) => {
            let said = confront_unread(alloc, names, fault)?;
            Ok(said)
        }
        Ok(confrontation) => {
            let said = say_confrontation(alloc, names, &confrontation)?;
            Ok(said)
        }
    }
}
