// Steps that make files, folders and links, beside the shelf.
use crate::edge::Edge;
use crate::room::{Room, done};
use crate::steps::{Step, push};
use std::fs::{OpenFile, OpenOptions, Permissions};
use std::io::{Seek, SeekFrom, Write};
use std::os::fd::AsRawFd;
use std::os::unix::fs::{PermissionsExt, symlink};
use std::rt::Files;
use std::{fs, io};
use vk_cases::{Tried, Unreplayed, number_at, word_at};

/// Makes what a step says at its path, or takes it away, and tells so.
pub fn make(room: &Room<'_>, step: &Step<'_>, told: &mut Vec<u8>) -> Tried<()> {
    let path = step.path;
    match step.word {
        "folder" => done(fs::create_dir(room.rt, path))?,
        "file" => done(put(room.rt, path, word_at(step.text, 2)?))?,
        "link" => name(room, step.text, path, false)?,
        "hard" => name(room, step.text, path, true)?,
        "large" => large(room, step.text, path)?,
        "remove" => done(fs::remove_file(room.rt, path))?,
        _ => return Err(Unreplayed::NoCase),
    }
    push(told, "made")
}

/// Makes a pipe, both of whose ends stay open, and a link to it.
pub fn make_pipe(edge: &mut Edge<'_>, path: &str, told: &mut Vec<u8>) -> Tried<()> {
    let number = open_pipe(edge)?;
    link_to_file(edge.room, number, path)?;
    push(told, "made")
}

/// Opens a pipe in the place of the one before. Answers the number of the end that is written.
fn open_pipe(edge: &mut Edge<'_>) -> Tried<i32> {
    let pipe = done(edge.room.rt.pipe())?;
    let number = pipe.1.as_raw_fd();
    edge.pipe = Some(pipe);
    Ok(number)
}

/// Makes a link at the path to the open file of that number.
fn link_to_file(room: &Room<'_>, number: i32, path: &str) -> Tried<()> {
    let target = format!(in room.alloc; "/proc/self/fd/{number}")?;
    let linked = symlink(room.rt, target.as_str(), path);
    done(linked)
}

/// A file with this text, which everybody may read.
fn put(rt: &HostRuntime, path: &str, text: &[u8]) -> io::Result<()> {
    fs::write(rt, path, text)?;
    fs::set_permissions(rt, path, Permissions::from_mode(0o644))
}

/// A link at the path to the second path that the step names, or the file of that once more.
fn name(room: &Room<'_>, step: &[u8], path: &str, is_hard: bool) -> Tried<()> {
    let target = room.path(word_at(step, 2)?)?;
    let named = if is_hard {
        fs::hard_link(room.rt, target.as_str(), path)
    } else {
        symlink(room.rt, target.as_str(), path)
    };
    done(named)
}

/// A file of a length, which holds nothing but zeros and a text at a place.
fn large(room: &Room<'_>, step: &[u8], path: &str) -> Tried<()> {
    let length = number_at(step, 2, u64::MAX)?;
    let at = number_at(step, 3, u64::MAX)?;
    let text = word_at(step, 4)?;
    done(put_at(room.rt, path, length, at, text))
}

fn put_at(rt: &HostRuntime, path: &str, length: u64, at: u64, text: &[u8]) -> io::Result<()> {
    let mut options = OpenOptions::new();
    options.write(true).create_new(true);
    let mut file = options.open(rt, path)?;
    file.set_len(length)?;
    file.seek(SeekFrom::Start(at))?;
    file.write_all(text)
}
