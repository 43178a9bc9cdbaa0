// Programs that replay the cases of the folder that they run in.

use crate::cases::read_cases;
use crate::unreplayed::Tried;
use std::alloc::Global;
use std::process::ExitCode;
use vk_files::{FileShelf, OutSink};
use vk_io::{Shelf, Sink};

/// Whether cases were replayed to their end.
pub type Replayed = Tried<()>;

/// What a program does over the files of a folder.
pub trait Replay {
    /// Replays its cases, and prints what comes of them.
    fn replay<S: Shelf, W: Sink>(&self, alloc: Global, shelf: &mut S, out: &mut W) -> Replayed;
}

/// A form of cases, which one file has, one case a line.
pub trait Form {
    /// The file that has the cases.
    fn file(&self) -> &'static str;

    /// The case, and what comes of it.
    fn text<S: Shelf>(&self, alloc: Global, shelf: &mut S, case: &[u8]) -> Tried<Vec<u8>>;
}

/// Replays every case of one form.
fn replay_form<F: Form, S: Shelf, W: Sink>(
    alloc: Global,
    form: &F,
    shelf: &mut S,
    out: &mut W,
) -> Replayed {
    let cases = read_cases(alloc, shelf, form.file())?;
    for case in cases.as_slice().split(|byte| *byte == b'\n') {
        if !case.is_empty() {
            let text = form.text(alloc, shelf, case)?;
            out.put(text.as_slice())?;
        }
    }
    Ok(())
}

/// The cases of some forms, one form after another.
#[derive(Drop)]
struct AllCases<'a, F> {
    forms: &'a [F],
}

impl<F: Form> Replay for AllCases<'_, F> {
    fn replay<S: Shelf, W: Sink>(&self, alloc: Global, shelf: &mut S, out: &mut W) -> Replayed {
        for form in self.forms {
            replay_form(alloc, form, shelf, out)?;
        }
        Ok(())
    }
}

/// Replays every case of these forms in the folder that the program runs in.
pub fn replay_forms<F: Form>(rt: &HostRuntime, forms: &[F]) -> ExitCode {
    replay_here(rt, &AllCases { forms })
}

/// Replays in the folder that the program runs in. Why it stopped before the end is told on
/// standard error.
pub fn replay_here<R: Replay>(rt: &HostRuntime, replay: &R) -> ExitCode {
    let alloc = rt.alloc();
    let replayed = replay.replay(
        alloc,
        &mut FileShelf::new(rt, alloc, "house.sqlite"),
        &mut OutSink::new(rt),
    );
    if let Err(unreplayed) = replayed {
        let _ = eprintln!(rt; "{unreplayed}");
    }
    ExitCode::from(u8::from(replayed.is_err()))
}
