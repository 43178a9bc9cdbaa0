//! How the program begins, over what the system gives it.

ghost use Rattle.std.specs.Prelude.{◌≡◌, ◌⊎◌, None};
ghost use Rattle.std.specs.Process.{exit_status};
ghost use Rattle.std.specs.Vec.Iter.{into_iter_steps};
ghost use Rattle.vk_program.specs.Runs.{EndsSo};

use crate::ending::end;
use crate::house::HousePlace;
use crate::performing::program;
use crate::store::{STORE, StoreHouse};
use std::alloc::Global;
use std::env::Args;
use std::fs::File;
use std::io;
use std::process::ExitCode;
use std::rt::Files;
use vk_files::{FileShelf, OutSink};

/// A handle of the root folder, which can't be written.
fn open_root(rt: &HostRuntime) -> io::Result<File> {
    File::open(rt, "/")
}

/// Three handles, which take the numbers of standard input, output and error where these are
/// closed. So no file of a command has such a number, and nothing that is printed goes into one.
fn take_standard_numbers(rt: &HostRuntime) -> io::Result<(File, File, File)> {
    Ok((open_root(rt)?, open_root(rt)?, open_root(rt)?))
}

/// How many bytes are taken and given back before anything else.
const ROOM: usize = 16 * 1024 * 1024;

/// A block of that size. None where there is no memory for it.
#[inline(never)]
fn room(alloc: Global) -> Option<Vec<u8>> {
    Vec::with_capacity(alloc, ROOM).ok()
}

/// Does what the words say over the auctions of the house, the files and the output that `rt`
/// reaches.
pub fn run_over<R: Eprint + Print + AllocGlobal + Files, H: HousePlace>(
    rt: &R,
    args: io::Result<Args>,
    house: H,
) -> ExitCode
    ensures { EndsSo into_iter_steps args (H.ledger house) (H.faults house) (exit_status result) }
{
    let mut files = FileShelf::new(rt, rt.alloc(), STORE);
    let mut out = OutSink::new(rt);
    let (code, _house) = program(args, rt, house, &mut files, &mut out);
    code
}

/// The whole program, over its words, the program's own name first, and the store of the current
/// folder. Ends with 6 also where the handles of the root folder aren't to be had, and then has done
/// nothing.
pub fn start(rt: &HostRuntime, args: io::Result<Args>) -> ExitCode
    ensures { EndsSo into_iter_steps args None 0 (exit_status result)
        ⊎ (exit_status result ≡ 6) }
{
    // Once the C library was given back a block of some size, it keeps twice as much of what is
    // given back later. Else it hands the memory of each lane to the system, which clears every
    // page of it anew for the next lane.
    drop(room(rt.alloc()));
    match take_standard_numbers(rt) {
        Ok(_standing) => run_over(rt, args, StoreHouse::of(rt)),
        Err(_fault) => end(rt, 6),
    }
}
