// Steps that look at files, beside the shelf.
use crate::edge::Edge;
use crate::room::done;
use crate::steps::{Step, push, push_bytes};
use std::fs;
use std::os::unix::fs::{MetadataExt, PermissionsExt};
use vk_cases::{Tried, Unreplayed};

/// Tells of the file at the step's path.
pub fn see(edge: &mut Edge<'_>, step: &Step<'_>, told: &mut Vec<u8>) -> Tried<()> {
    let path = step.path;
    match step.word {
        "see" => see_bytes(edge, path, told),
        "mode" => see_mode(edge, path, told),
        "note" => note_time(edge, path, told),
        "since" => see_time(edge, path, told),
        _ => Err(Unreplayed::NoCase),
    }
}

/// What the file holds.
fn see_bytes(edge: &Edge<'_>, path: &str, told: &mut Vec<u8>) -> Tried<()> {
    if !done(fs::exists(edge.room.rt, path))? {
        return push(told, "nothing");
    }
    let bytes = done(fs::read(edge.room.rt, path))?;
    push_bytes(told, bytes.as_slice())
}

/// Who may read and write the file, as the last nine bits of its mode.
fn see_mode(edge: &Edge<'_>, path: &str, told: &mut Vec<u8>) -> Tried<()> {
    let mode = done(fs::metadata(edge.room.rt, path))?.permissions().mode() & 0o777;
    push_digit(told, mode >> 6)?;
    push_digit(told, mode >> 3)?;
    push_digit(told, mode)
}

/// Puts the last of the number's octal digits behind what is told.
fn push_digit(told: &mut Vec<u8>, number: u32) -> Tried<()> {
    told.push(b'0'.wrapping_add((number % 8) as u8))?;
    Ok(())
}

/// When the file was written last, in seconds and nanoseconds.
fn time_of(edge: &Edge<'_>, path: &str) -> Tried<(i64, i64)> {
    let metadata = done(fs::metadata(edge.room.rt, path))?;
    Ok((metadata.mtime(), metadata.mtime_nsec()))
}

/// Notes when the file was written last.
fn note_time(edge: &mut Edge<'_>, path: &str, told: &mut Vec<u8>) -> Tried<()> {
    edge.noted = Some(time_of(edge, path)?);
    push(told, "noted")
}

/// Whether the file was written since that was noted.
fn see_time(edge: &Edge<'_>, path: &str, told: &mut Vec<u8>) -> Tried<()> {
    if edge.noted == Some(time_of(edge, path)?) {
        return push(told, "not written");
    }
    push(told, "written")
}
