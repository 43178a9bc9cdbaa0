// The smallest board, a challenge and the reply to it, of which one is cut short.
use crate::commands::{Given, Line};
use crate::stops::Worlds;
use crate::world::World;
use vk_cases::{Text, Tried, Unreplayed, lines_in};
use vk_io::Shelf;
use vk_lines::push_number_line;

/// The files that are cut.
const CUT: [&str; 3] = ["board", "challenge-0", "reply-0"];

/// Tells of each of the files whether `verify` names the line at which it is cut.
pub fn try_cuts<S: Shelf>(shelf: &mut S, worlds: &mut Worlds, text: &mut Text) -> Tried<()> {
    worlds.now.begin(shelf, Given::Smallest, &[])?;
    worlds.old.take(&mut worlds.now)?;
    worlds.now.begin(shelf, Given::Smallest, &[])?;
    for name in &CUT {
        push_cuts(worlds, text, name)?;
    }
    Ok(())
}

/// The line of a file, which is whole in the old world, and again in the one now.
fn push_cuts(worlds: &mut Worlds, text: &mut Text, name: &str) -> Tried<()> {
    let whole = worlds.old.files.file(name).ok_or(Unreplayed::NoCase)?;
    text.put(b"cuts of ");
    text.put(name.as_bytes());
    match first_untold(&mut worlds.now, name, whole)? {
        None => text.put_line(b": every line told"),
        Some(kept) => text.put_count(b": untold behind bytes ", kept),
    }
    worlds.now.files.put_file(name, whole)?;
    Ok(())
}

/// How many bytes are kept by the first cut whose line isn't told, of those at each byte before the
/// file's end.
fn first_untold(world: &mut World, name: &str, whole: &[u8]) -> Tried<Option<u64>> {
    for place in 0..whole.len() {
        let (kept, _cut) = whole.split_at(place);
        world.files.put_file(name, kept)?;
        if !is_told(world, name)? {
            return Ok(Some(place as u64));
        }
    }
    Ok(None)
}

/// Whether `verify` says that the file is malformed at the line behind those that are whole.
fn is_told(world: &mut World, name: &str) -> Tried<bool> {
    let mut said = Vec::new(world.alloc);
    let told = is_told_so(world, name, &mut said);
    told
}

/// The same, with what has to be said put there.
fn is_told_so(world: &mut World, name: &str, said: &mut Vec<u8>) -> Tried<bool> {
    said.extend_from_slice(b"malformed ")?;
    said.extend_from_slice(name.as_bytes())?;
    let line = lines_in(&world.files, name).saturating_add(1);
    push_number_line(said, b" line", line)?;
    world.run(Line::Verify)?;
    Ok(world.said(4, said.as_slice()))
}
