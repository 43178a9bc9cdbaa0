//! The call.

ghost use Rattle.std.specs.Prelude.{◌≡◌, ◌≢◌, ◌<◌, IfOk, IfSome, Some, length, map, string_bytes};
ghost use Rattle.vk_effect.specs.Effects.{Effect, IsEnd};
ghost use Rattle.vk_app.specs.Commands.{Command};
ghost use Rattle.page.specs.Handed.{handed_files, words_in};
ghost use Rattle.page.specs.Runs.{HandsBack, HandsEffect, IsPageRun, no_auctions, work_alone};
ghost use Rattle.page.specs.Shown.{BeginsWith, IsBare, shown_bytes};

use crate::folder::{NamedBytes, shelf_of};
use crate::room::{WantedName, bare, show};
use crate::sure::{SureKeeper, SureSink};
use std::alloc::Global;
use vk_app::run;
use vk_io::SureShelf;
use vk_residue::NoMemory;
use vk_words::words_of_line;

/// What is left of a run that wanted no memory: its status, its files, the house and the text.
#[derive(Drop)]
struct Ran {
    status: u8,
    shelf: SureShelf,
    keeper: SureKeeper,
    out: SureSink,
}

/// The words of the line. None where it isn't UTF-8, as of the words of a command line.
fn words_of(alloc: Global, line: &[u8]) -> Result<Vec<String>, NoMemory>
    ensures { IfOk result (λ words. map string_bytes words.items ≡ words_in line.now) }
{
    match words_of_line(alloc, line)? {
        Some(words) => Ok(words),
        None => Ok(Vec::new(alloc)),
    }
}

/// Does what the words say over the shelf, and over a house that keeps no auction. Errs where the
/// run wanted memory.
fn run_over(alloc: Global, words: &[String], shelf: SureShelf) -> Result<Ran, NoMemory>
    ensures ended { IfOk result (λ ran. IsEnd ran.status) }
    ensures run { IfOk result (λ ran. IsPageRun (map string_bytes words.now) shelf.files ran.status
        ran.shelf.files ran.keeper.ledger ran.out.taken) }
{
    let mut shelf = shelf;
    let mut keeper = SureKeeper::new(alloc);
    let mut out = SureSink::new(alloc);
    let status = run(alloc, words, &mut shelf, &mut keeper, &mut out);
    if status == 9 {
        return Err(NoMemory);
    }
    Ok(Ran {
        status,
        shelf,
        keeper,
        out,
    })
}

/// Does what the line says over the files that are handed in. Errs for want of memory alone.
fn run_line(alloc: Global, line: &[u8], files: &[NamedBytes<'_>]) -> Result<Ran, NoMemory>
    ensures ended { IfOk result (λ ran. IsEnd ran.status) }
    ensures run { IfOk result (λ ran. IsPageRun (words_in line.now) (handed_files files.now)
        ran.status
        ran.shelf.files ran.keeper.ledger ran.out.taken) }
{
    let words = words_of(alloc, line)?;
    let shelf = shelf_of(alloc, files)?;
    let ran = run_over(alloc, words.as_slice(), shelf)?;
    Ok(ran)
}

/// Puts what was printed and the files that are wanted into the room, and answers the status; or 9,
/// where they don't fit.
fn hand_back(ran: &Ran, wanted: &[WantedName<'_>], room: &mut [u8]) -> u8
    requires { IsEnd ran.now.status }
    ensures status { result ≢ 9 → result ≡ ran.now.status }
    ensures never_failed { result ≢ 6 }
    ensures small { result ≡ 9 → length room.old
        < length (shown_bytes ran.now.out.taken ran.now.shelf.files wanted.now) }
    ensures begins { result ≢ 9
        → BeginsWith (shown_bytes ran.now.out.taken ran.now.shelf.files wanted.now) room.new }
    ensures bare { result ≡ 9 → IsBare room.new }
{
    match show(room, ran.out.bytes(), &ran.shelf, wanted) {
        Some(_end) => ran.status,
        None => bare(room),
    }
}

/// Does what the words of the line say over the files, and a house that keeps no auction, and
/// answers the status. Puts into the room what was printed and the files that are wanted. Where
/// memory is wanting, or the room is too small, the status is 9 and the room begins with 8 zeros.
#[unsafe(no_mangle)]
pub extern "C" fn page_run(
    alloc: Global,
    line: &[u8],
    files: &[NamedBytes<'_>],
    wanted: &[WantedName<'_>],
    room: &mut [u8],
) -> u8
    // What is handed back is of a run of the program that keeps every promise of its own.
    ensures run { result ≢ 9 → HandsBack (words_in line.now) (handed_files files.now) wanted.now
        result room.new }

    // No file, house or text in memory fails.
    ensures never_failed { result ≢ 6 }

    // Where the words come to one effect, status, text and files are those of that effect.
    ensures effect { (effect : Effect)
        → work_alone (handed_files files.now) (words_in line.now) ≡ Some (Command effect)
        → result ≢ 9 → HandsEffect effect (handed_files files.now) wanted.now result room.new }

    // Nothing is handed back with status 9.
    ensures bare { result ≡ 9 → IsBare room.new }
{
    match run_line(alloc, line, files) {
        Ok(ran) => hand_back(&ran, wanted, room),
        Err(NoMemory) => bare(room),
    }
}
