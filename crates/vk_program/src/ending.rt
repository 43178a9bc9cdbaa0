//! With which status the program ends, and what it says on standard error.

ghost use Rattle.std.specs.Prelude.{◌≡◌};
ghost use Rattle.std.specs.Process.{exit_status};
ghost use Rattle.vk_program.specs.Refusals.{stopped_status, unopened_outside};
ghost use Rattle.vk_program.specs.Statuses.{status_behind};

use crate::house::Unopened;
use crate::store::STORE;
use std::process::ExitCode;
use std::str::from_utf8;
use vk_files::NamedFault;
use vk_io::OutsideErr;
use vk_keeper_sql::OpenErr;
use vk_words::{hint_line, hint_of};

/// Says on standard error why a command was stopped, and ends with its status.
pub fn end<R: Eprint>(rt: &R, status: u8) -> ExitCode
    ensures { exit_status result ≡ status }
{
    let _ = match status {
        6 => eprintln!(rt; "outside fault"),
        9 => eprintln!(rt; "no memory"),
        _ => Ok(()),
    };
    ExitCode::from(status)
}

/// The code, or that of what was refused behind it, told once.
pub fn with_refusal<R: Eprint>(rt: &R, code: ExitCode, behind: Result<(), OutsideErr>) -> ExitCode
    ensures { exit_status result ≡ status_behind behind (exit_status code) }
{
    if code == ExitCode::from(6) || code == ExitCode::from(9) {
        return code;
    }
    match behind {
        Ok(()) => code,
        Err(OutsideErr::Failed) => end(rt, 6),
        Err(OutsideErr::NoMemory) => end(rt, 9),
    }
}

/// Says on standard error that the house was not opened and why, and ends with the status of that.
pub fn refuse<R: Eprint>(rt: &R, refusal: Unopened) -> ExitCode
    ensures { exit_status result ≡ stopped_status (unopened_outside refusal) }
{
    let code = match refusal {
        Unopened::Store(OpenErr::Version { .. }) => {
            let _ = eprintln!(rt; "other store");
            ExitCode::from(6)
        }
        _ => end(rt, refusal.status()),
    };
    explain(rt, refusal);
    code
}

/// Says on standard error of which file it is that the house was not opened, and why.
pub fn explain<R: Eprint>(rt: &R, refusal: Unopened) {
    let _ = eprintln!(rt; "{STORE}: {refusal}");
}

/// Says on standard error what a person can mend: which word isn't what it has to be, where the
/// words are no command, and which file a fault of the outside is of, with what the system said.
pub fn advise<R: Eprint>(rt: &R, code: ExitCode, words: &[String], fault: Option<NamedFault<'_>>) {
    if code == ExitCode::from(2) {
        advise_on_words(rt, words);
    }
    if code == ExitCode::from(6) {
        advise_on_file(rt, fault);
    }
}

/// Says which word isn't what it has to be.
fn advise_on_words<R: Eprint>(rt: &R, words: &[String]) {
    if let Some(hint) = hint_of(words) {
        let line = hint_line(hint);
        if let Ok(line) = from_utf8(line.as_bytes()) {
            let _ = eprint!(rt; "{line}");
        }
    }
}

/// Says which file the last fault is of, and what the system said.
fn advise_on_file<R: Eprint>(rt: &R, fault: Option<NamedFault<'_>>) {
    if let Some(NamedFault { name, reason }) = fault {
        if let Ok(name) = from_utf8(name) {
            let _ = eprintln!(rt; "{name}: {reason}");
        }
    }
}
