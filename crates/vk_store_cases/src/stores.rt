// Stores in memory: what their files hold, how they are opened and closed, and what is done to them
// between.
use crate::commands::Task;
use crate::lent::Lent;
use crate::texts::put_unopened;
use sqlite::{Alter, Connection, FileStore, Files, Options};
use sqlite_disk::{Crash, Disk, Fuse, Memory};
use std::alloc::Global;
use vk_cases::{Text, Tried, Unreplayed};
use vk_keeper_sql::SqlKeeper;

/// What the files of a store hold.
#[derive(Drop)]
pub struct Image {
    log: Vec<u8>,
    db: Vec<u8>,
}

/// What came of a task over a store.
#[derive(Drop)]
pub struct Session {
    /// What it answered, or why the store was not opened.
    pub text: Vec<u8>,
    /// No call of the files was refused.
    pub whole: bool,
    /// What the files hold, also where the machine then stops.
    pub image: Image,
}

impl Image {
    /// No store yet.
    pub fn none(alloc: Global) -> Image {
        Image::of(alloc, Vec::new(alloc))
    }

    /// A store whose log is empty.
    pub fn of(alloc: Global, db: Vec<u8>) -> Image {
        Image {
            log: Vec::new(alloc),
            db,
        }
    }

    /// Does the task over files that hold this and take no more than so many calls.
    pub fn session(&self, alloc: Global, task: &Task, of_log: u64, of_db: u64) -> Tried<Session> {
        let mut text = Text::new(alloc);
        let (whole, image) = self.done(alloc, task, &mut text, of_log, of_db)?;
        let text = text.into_bytes()?;
        Ok(Session { text, whole, image })
    }

    /// Does it, and puts behind the text what it answered. Whether no call was refused, and what
    /// the files hold.
    fn done(
        &self,
        alloc: Global,
        task: &Task,
        text: &mut Text,
        of_log: u64,
        of_db: u64,
    ) -> Tried<(bool, Image)> {
        let log = disk(alloc, self.log.as_slice(), of_log)?;
        let db = disk(alloc, self.db.as_slice(), of_db)?;
        let (done, whole, files) = done_in(alloc, Files { log, db }, task, text);
        let image = left_in(alloc, files)?;
        done?;
        Ok((whole, image))
    }

    /// What comes of the task over files that take all calls.
    pub fn said(&self, alloc: Global, task: &Task) -> Tried<Vec<u8>> {
        let session = self.session(alloc, task, u64::MAX, u64::MAX)?;
        Ok(session.text)
    }

    /// Does the task over files that take all calls, and is then what these hold. Answers what came
    /// of it.
    pub fn take(&mut self, alloc: Global, task: &Task) -> Tried<Vec<u8>> {
        let session = self.session(alloc, task, u64::MAX, u64::MAX)?;
        *self = session.image;
        Ok(session.text)
    }
}

/// A file in memory that holds these bytes and takes no more than so many calls.
fn disk(alloc: Global, bytes: &[u8], calls: u64) -> Tried<Fuse<Memory>> {
    let mut memory = Memory::new(alloc);
    if memory.write_at(0, bytes).is_err() || memory.sync().is_err() {
        return Err(Unreplayed::Outside);
    }
    Ok(Fuse::new(memory, calls))
}

/// What the files hold once the machine stopped.
fn left_in(alloc: Global, mut files: Files<Fuse<Memory>>) -> Tried<Image> {
    files.log.crash();
    files.db.crash();
    let left = image_of(alloc, &files);
    left
}

/// What the files hold.
fn image_of(alloc: Global, files: &Files<Fuse<Memory>>) -> Tried<Image> {
    let log = Vec::from_slice(alloc, files.log.inner().bytes())?;
    let db = Vec::from_slice(alloc, files.db.inner().bytes())?;
    Ok(Image { log, db })
}

// What follows takes a store and gives it back, so that no store of files is dropped: to prove that
// is dear.

fn done_in<D: Disk + Drop>(
    alloc: Global,
    files: Files<D>,
    task: &Task,
    text: &mut Text,
) -> (Tried<()>, bool, Files<D>) {
    match opened(alloc, files) {
        Ok(connection) => {
            let (done, connection) = done_over(alloc, connection, task, text);
            let (files, whole) = closed(connection);
            (done, whole, files)
        }
        Err(files) => {
            text.put(b"unopened");
            (Ok(()), false, files)
        }
    }
}

/// A store over files, or these where they are not opened.
fn opened<D: Disk + Drop>(
    alloc: Global,
    files: Files<D>,
) -> Result<Connection<FileStore<D>>, Files<D>> {
    if !files.log.may_be_used() || !files.db.may_be_used() {
        return Err(files);
    }
    match Connection::open_files(alloc, files, Options::new(1)) {
        Ok(connection) => Ok(connection),
        Err((_, left)) => Err(left.into_files()),
    }
}

/// The files of a store, and whether no call was refused.
fn closed<D: Disk + Drop>(connection: Connection<FileStore<D>>) -> (Files<D>, bool) {
    match connection.close_files() {
        Ok(files) => (files, true),
        Err((_, store)) => (store.close(), false),
    }
}

/// Does the task over a keeper of this store, or runs its statements without one.
fn done_over<S: Alter>(
    alloc: Global,
    mut connection: Connection<S>,
    task: &Task,
    text: &mut Text,
) -> (Tried<()>, Connection<S>) {
    if let Task::Run(statements) = task {
        let ran = run(&mut connection, statements);
        text.put(ran);
        return (Ok(()), connection);
    }
    match SqlKeeper::over(alloc, connection) {
        Ok(mut keeper) => {
            let done = task.put_done(alloc, &mut Lent::of(&mut keeper), text);
            (done, keeper.close())
        }
        Err((refusal, connection)) => (put_unopened(text, refusal), connection),
    }
}

/// Runs the statements, and answers whether they ran.
fn run<S: Alter>(connection: &mut Connection<S>, statements: &str) -> &'static [u8] {
    match connection.execute_batch(statements) {
        Ok(_changed) => b"ran",
        Err(_refused) => b"not run",
    }
}
