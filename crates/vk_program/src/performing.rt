//! What the words of a command line do, over a house, files and an output.

ghost use Rattle.std.specs.Prelude.{◌≡◌, ◌⊎◌, ℕ, List, drop, map, string_bytes, IfOk};
ghost use Rattle.std.specs.Process.{exit_status};
ghost use Rattle.std.specs.Vec.Iter.{into_iter_steps};
ghost use Rattle.vk_program.specs.Houses.{CausesUnopened, told_by};
ghost use Rattle.vk_program.specs.Runs.{IsRefused, ProgramKeeps, SettledKeeps, met};
ghost use Rattle.vk_program.specs.Words.{AreWordsBehind, AreYielded};

use crate::ending::{advise, end, explain, refuse, with_refusal};
use crate::house::{HousePlace, Unopened};
use crate::late::LateKeeper;
use crate::settling::Settle;
use std::alloc::Global;
use std::env::Args;
use std::io::{self, ErrorKind};
use std::process::ExitCode;
use vk_app::run;
use vk_io::Sink;
use vk_keeper::Keeper;
use vk_residue::NoMemory;
use vk_words::may_ask_house;

/// All words that were handed in, the program's own name first. There are none where one of them is
/// not UTF-8. Errs for want of memory alone.
fn words_of(alloc: Global, args: io::Result<Args>) -> Result<Vec<String>, NoMemory>
    ensures { IfOk result (λ words. AreYielded into_iter_steps args words.items) }
{
    match args {
        Ok(args) => {
            let words = Vec::from_iter(alloc, args)?;
            Ok(words)
        }
        Err(error) => {
            if error.kind() == ErrorKind::OutOfMemory {
                return Err(NoMemory);
            }
            Ok(Vec::new(alloc))
        }
    }
}

/// The words behind the first.
fn behind_first(words: &[String]) -> &[String]
    ensures { result.now ≡ drop 1 words.now }
{
    match words {
        [_first, behind @ ..] => behind,
        [] => words,
    }
}

/// Does what the words say over the files and the keeper, prints to the sink, and sees that what
/// was written last is where it belongs. What `run` promises of its status holds of the program's,
/// where that last doesn't tell of a fault. Says what a person can mend.
fn perform<R: Eprint + AllocGlobal, S: Settle, K: Keeper + Drop, W: Sink>(
    rt: &R,
    words: &[String],
    files: &mut S,
    keeper: &mut K,
    out: &mut W,
) -> ExitCode
    ensures { SettledKeeps (map string_bytes words.now) (exit_status result)
        (met (S.held files.old) (S.Shelf.faults files.old) (K.ledger keeper.old)
        (K.Keeper.faults keeper.old) (W.taken out.old) (W.Sink.faults out.old))
        (met (S.held files.new) (S.Shelf.faults files.new) (K.ledger keeper.new)
        (K.Keeper.faults keeper.new) (W.taken out.new) (W.Sink.faults out.new)) }
{
    let status = run(rt.alloc(), words, files, keeper, out);
    let ran = end(rt, status);
    let settled = files.settle();
    let code = with_refusal(rt, ran, settled);
    advise(rt, code, words, files.last_fault());
    code
}

/// Opens the house, where the words may ask it and something is kept in it already.
fn open_asked<H: HousePlace>(words: &[String], keeper: &mut LateKeeper<H>) -> Result<(), Unopened>
    ensures ledger { told_by H.Kept.ledger (H.ledger keeper.new.house) keeper.new.kept
        ≡ told_by H.Kept.ledger (H.ledger keeper.old.house) keeper.old.kept }
    ensures causes { CausesUnopened result (H.faults keeper.old.house) (H.faults keeper.new.house) }
{
    if may_ask_house(words) {
        let _is_open = keeper.open_made()?;
    }
    Ok(())
}

/// Does what the words say over the keeper of the house. A house in which something is kept is
/// opened before, and no other one unless the keeper is to keep something: so words that are no
/// command, files that are missing, and what only asks leave no store.
fn perform_asking<R: Eprint + AllocGlobal, H: HousePlace, S: Settle, W: Sink>(
    rt: &R,
    words: &[String],
    files: &mut S,
    keeper: &mut LateKeeper<H>,
    out: &mut W,
) -> ExitCode
    ensures { let before = met (S.held files.old) (S.Shelf.faults files.old)
        (told_by H.Kept.ledger (H.ledger keeper.old.house) keeper.old.kept)
        (H.faults keeper.old.house) (W.taken out.old) (W.Sink.faults out.old) in
        let after = met (S.held files.new) (S.Shelf.faults files.new)
        (told_by H.Kept.ledger (H.ledger keeper.new.house) keeper.new.kept)
        (H.faults keeper.new.house) (W.taken out.new) (W.Sink.faults out.new) in
        SettledKeeps (map string_bytes words.now) (exit_status result) before after
        ⊎ IsRefused (exit_status result) before after }
{
    if let Err(refusal) = open_asked(words, keeper) {
        return refuse(rt, refusal);
    }
    let code = perform(rt, words, files, keeper, out);
    if let Some(refusal) = keeper.refusal() {
        explain(rt, refusal);
    }
    code
}

/// Does what the words say over the auctions of the house, which is closed behind it where it was
/// opened, and gives the house back.
fn perform_in<R: Eprint + AllocGlobal, H: HousePlace, S: Settle, W: Sink>(
    rt: &R,
    words: &[String],
    house: H,
    files: &mut S,
    out: &mut W,
) -> (ExitCode, H)
    ensures { ProgramKeeps (map string_bytes words.now) (exit_status result.0)
        (met (S.held files.old) (S.Shelf.faults files.old) (H.ledger house)
        (H.faults house) (W.taken out.old) (W.Sink.faults out.old))
        (met (S.held files.new) (S.Shelf.faults files.new) (H.ledger result.1)
        (H.faults result.1) (W.taken out.new) (W.Sink.faults out.new)) }
{
    let mut keeper = LateKeeper::over(house);
    let asked = perform_asking(rt, words, files, &mut keeper, out);
    let (house, closed) = keeper.close();
    (with_refusal(rt, asked, closed), house)
}

/// Does what the words say, which are those of `args` behind the program's own name, over the
/// auctions of the house, and gives the house back. With 9 nothing may have been done at all.
pub fn program<R: Eprint + AllocGlobal, H: HousePlace, S: Settle, W: Sink>(
    args: io::Result<Args>,
    rt: &R,
    house: H,
    files: &mut S,
    out: &mut W,
) -> (ExitCode, H)
    ensures { let before = met (S.held files.old) (S.Shelf.faults files.old) (H.ledger house)
        (H.faults house) (W.taken out.old) (W.Sink.faults out.old) in
        let after = met (S.held files.new) (S.Shelf.faults files.new) (H.ledger result.1)
        (H.faults result.1) (W.taken out.new) (W.Sink.faults out.new) in
        ((words : List (List ℕ)) × AreWordsBehind into_iter_steps args words
        × ProgramKeeps words (exit_status result.0) before after)
        ⊎ ((exit_status result.0 ≡ 9) × (after ≡ before)) }
{
    match words_of(rt.alloc(), args) {
        Ok(words) => perform_in(rt, behind_first(&words), house, files, out),
        Err(NoMemory) => (end(rt, 9), house),
    }
}
