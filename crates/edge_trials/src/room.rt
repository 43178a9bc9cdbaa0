// The folder that trials work in.
use std::alloc::Global;
use std::rt::Files;
use std::{fs, io};
use vk_cases::{Tried, Unreplayed, text_of};

/// The folder's name, in the folder that the program runs in.
const ROOM: &str = "room";

/// A folder for one trial after another, in the folder that the program runs in.
#[derive(Drop)]
pub struct Room<'a> {
    pub alloc: Global,
    pub rt: &'a HostRuntime,
    path: String,
}

impl<'a> Room<'a> {
    /// The folder, which isn't made yet.
    pub fn new(rt: &'a HostRuntime) -> Tried<Room<'a>> {
        let alloc = rt.alloc();
        let here = done(rt.canonicalize(alloc, "."))?.into_string();
        let path = format!(in alloc; "{here}/{ROOM}")?;
        Ok(Room { alloc, rt, path })
    }

    /// Takes the folder away, with all that is in it.
    pub fn clear(&self) -> Tried<()> {
        if done(fs::exists(self.rt, ROOM))? {
            done(fs::remove_dir_all(self.rt, ROOM))?;
        }
        Ok(())
    }

    /// Makes the folder anew, with nothing in it.
    pub fn make(&self) -> Tried<()> {
        self.clear()?;
        done(fs::create_dir(self.rt, ROOM))
    }

    /// The path that a step names: where `@` stands before it, from the root to the folder and on;
    /// else as it is.
    pub fn path(&self, word: &[u8]) -> Tried<String> {
        let mut path = Vec::new(self.alloc);
        match word.split_first() {
            Some((b'@', rest)) => {
                path.extend_from_slice(self.path.as_bytes())?;
                path.extend_from_slice(rest)?;
            }
            _ => path.extend_from_slice(word)?,
        }
        text_of(self.alloc, path.as_slice())
    }
}

/// What comes of a call that isn't on trial.
pub fn done<T>(outcome: io::Result<T>) -> Tried<T> {
    match outcome {
        Ok(value) => Ok(value),
        Err(_) => Err(Unreplayed::Outside),
    }
}
