//! The room for what is handed back.

ghost use Rattle.std.specs.Prelude.{◌≡◌, ◌≤◌, length, option_copied};
ghost use Rattle.page.specs.Shown.{IsBare, Puts, held_under, shown_bytes, sized_bytes, wanted_bytes};

use std::str::from_utf8;
use vk_io::SureShelf;

/// The name of a file that is wanted behind the command.
#[repr(C)]
#[derive(Clone, Copy)]
pub struct WantedName<'a> {
    pub name: &'a [u8],
}

/// Puts the bytes into the room at that place, and answers the place behind them. None where they
/// don't fit there.
fn put(room: &mut [u8], at: usize, bytes: &[u8]) -> Option<usize>
    requires { at ≤ length room.old }
    ensures { Puts bytes.now at result room.old room.new }
{
    if room.len() - at < bytes.len() {
        return None;
    }
    let end = at + bytes.len();
    room[at..end].copy_from_slice(bytes);
    Some(end)
}

/// Puts the number of the bytes into the room, and then these.
fn put_sized(room: &mut [u8], at: usize, bytes: &[u8]) -> Option<usize>
    requires { at ≤ length room.old }
    ensures { Puts (sized_bytes bytes.now) at result room.old room.new }
{
    let at = put(room, at, &(bytes.len() as u64).to_be_bytes())?;
    let end = put(room, at, bytes)?;
    Some(end)
}

/// Puts a file that is wanted into the room, or that there is none.
fn put_wanted(room: &mut [u8], at: usize, held: Option<&[u8]>) -> Option<usize>
    requires { at ≤ length room.old }
    ensures { Puts (wanted_bytes (option_copied held.entry)) at result room.old room.new }
{
    match held {
        Some(bytes) => put_sized(room, at, bytes),
        None => put(room, at, &u64::MAX.to_be_bytes()),
    }
}

/// What the shelf holds under that name. None where no file has it, and of a name that isn't UTF-8.
#[tactic(auto, using(crate::proofs::Names::utf8_test, crate::proofs::Names::other_test))]
fn held_under<'a>(shelf: &'a SureShelf, name: &[u8]) -> Option<&'a [u8]>
    ensures { option_copied result ≡ held_under shelf.now.files name.now }
{
    match from_utf8(name) {
        Ok(name) => shelf.file(name),
        Err(_) => None,
    }
}

/// Puts the text and the files that are wanted into the room, and answers the place behind them.
/// None where they don't fit.
pub fn show(
    room: &mut [u8],
    text: &[u8],
    shelf: &SureShelf,
    wanted: &[WantedName<'_>],
) -> Option<usize>
    ensures { Puts (shown_bytes text.now shelf.now.files wanted.now) 0 result room.old room.new }
{
    let mut at = put_sized(room, 0, text)?;
    for file in wanted {
        at = put_wanted(room, at, held_under(shelf, file.name))?;
    }
    Some(at)
}

/// Puts the length of no text into the room, as far as it has bytes for it, and answers the status
/// of want of memory.
pub fn bare(room: &mut [u8]) -> u8
    ensures status { result ≡ 9 }
    ensures bare { IsBare room.new }
{
    let count = room.len().min(8);
    room[..count].copy_from_slice(&0u64.to_be_bytes()[..count]);
    9
}
