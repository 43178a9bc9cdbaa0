// What a command leaves that is stopped.
use crate::commands::Command;
use crate::world::World;
use std::alloc::Global;
use std::mem::swap;
use vk_cases::{Tried, Unreplayed};
use vk_io::{MemShelf, Shelf};

/// What stands: the files, and all that is kept of the auction.
#[derive(Drop)]
pub struct Left {
    pub files: MemShelf,
    kept: String,
}

/// What a command finds, what the whole of it leaves, and a world in which a call of it may fail.
#[derive(Drop)]
pub struct Worlds {
    pub old: Left,
    new: Left,
    pub now: World,
}

impl Left {
    /// Nothing.
    fn new(alloc: Global) -> Left {
        Left {
            files: MemShelf::new(alloc),
            kept: String::new(alloc),
        }
    }

    /// Takes what stands in the world over, which has to begin anew then.
    pub fn take(&mut self, world: &mut World) -> Tried<()> {
        world.look()?;
        swap(&mut self.files, &mut world.files);
        swap(&mut self.kept, &mut world.kept);
        Ok(())
    }
}

impl Worlds {
    /// Of no command yet.
    pub fn new(alloc: Global) -> Worlds {
        Worlds {
            old: Left::new(alloc),
            new: Left::new(alloc),
            now: World::new(alloc),
        }
    }

    /// Has what a command finds, and what it leaves where no call of it fails.
    pub fn begin<S: Shelf>(&mut self, shelf: &mut S, command: &Command) -> Tried<()> {
        self.now.begin(shelf, command.given, command.before)?;
        self.old.take(&mut self.now)?;
        self.now.begin(shelf, command.given, command.before)?;
        self.now.run(command.line)?;
        if !self.now.said(0, command.whole.as_bytes()) {
            return Err(Unreplayed::NoCase);
        }
        self.new.take(&mut self.now)
    }

    /// Whether that auction is kept which the whole command leaves.
    pub fn keeps(&self) -> bool {
        self.new.kept.as_str() == self.now.kept.as_str()
    }

    /// Whether all that stands is what the whole command leaves.
    pub fn is_done(&self, command: &Command) -> bool {
        self.keeps() && are_alike(command, &self.now.files, &self.new.files)
    }

    /// Whether the command was stopped. Nothing changed, and nothing was printed; or the auction is
    /// kept as the whole command leaves it, and the files are divided at one of them with nothing
    /// printed, or all are written and a part of the text was printed.
    pub fn is_stopped(&self, command: &Command) -> bool {
        let text = self.now.text();
        if text.is_empty() && (self.is_unchanged(command) || self.is_divided(command)) {
            return true;
        }
        self.is_done(command) && command.whole.as_bytes().starts_with(text)
    }

    /// Whether all that stands is what the command found.
    fn is_unchanged(&self, command: &Command) -> bool {
        self.old.kept.as_str() == self.now.kept.as_str()
            && are_alike(command, &self.now.files, &self.old.files)
    }

    /// Whether the auction is kept as the whole command leaves it, and the files are divided at one
    /// of those that the command writes, and else as before.
    fn is_divided(&self, command: &Command) -> bool {
        self.keeps()
            && are_divided(
                command.writes,
                &self.now.files,
                &self.old.files,
                &self.new.files,
            )
            && are_given(command, &self.now.files, &self.old.files)
    }
}

/// Whether the files of these names are divided at one of them: those before it are as the whole
/// command leaves them, it is as before or a part of its text, and all others are as before.
fn are_divided(writes: &[&str], files: &MemShelf, old: &MemShelf, new: &MemShelf) -> bool {
    let mut whole = true;
    for name in writes {
        let held = files.file(name);
        let divides = whole && is_part(held, new.file(name));
        whole = whole && held == new.file(name);
        if !divides && held != old.file(name) {
            return false;
        }
    }
    true
}

/// Whether the file holds a part of this text.
fn is_part(held: Option<&[u8]>, text: Option<&[u8]>) -> bool {
    match (held, text) {
        (Some(held), Some(text)) => text.starts_with(held),
        _ => false,
    }
}

/// Whether the files that are given or written are these.
fn are_alike(command: &Command, files: &MemShelf, others: &MemShelf) -> bool {
    for name in command.writes {
        if files.file(name) != others.file(name) {
            return false;
        }
    }
    are_given(command, files, others)
}

/// Whether the given files that aren't written are these.
fn are_given(command: &Command, files: &MemShelf, others: &MemShelf) -> bool {
    for name in command.given.names() {
        if !is_among(name, command.writes) && files.file(name) != others.file(name) {
            return false;
        }
    }
    true
}

/// Whether it is one of these names.
fn is_among(name: &str, names: &[&str]) -> bool {
    for other in names {
        if *other == name {
            return true;
        }
    }
    false
}
