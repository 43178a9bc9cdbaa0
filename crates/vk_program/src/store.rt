//! Where the auctions of the house are kept: the file `house.sqlite` in the current folder.

ghost use Rattle.std.specs.Prelude.{◌≡◌};
ghost use Rattle.vk_program.specs.Houses.{CausesUnopened};
ghost use Rattle.vk_program.specs.Stores.{is_anothers, is_exposed, lets_in, own_refusal};

use crate::house::{HousePlace, Unopened};
use sqlite::{Connection, File, FileStore};
use sqlite_disk::Disk;
use std::alloc::Global;
use std::fs::{self, Metadata, OpenOptions};
use std::io::{self, ErrorKind};
use std::os::unix::fs::{MetadataExt, OpenOptionsExt};
use std::rt::Files;
use vk_io::OutsideErr;
use vk_keeper_sql::SqlKeeper;

/// The path of the store. No file that the program writes is this one, or one that SQLite keeps
/// beside it.
pub(crate) const STORE: &str = "house.sqlite";

/// Who may read and write a store that is made anew: its owner alone, since the secrets of the
/// bidders are in it. No umask widens this, and the log beside it gets the same. A store that holds
/// anything keeps what it has.
const OWNER_ALONE: u32 = 0o600;

/// What the name of a file ends with that SQLite may find beside a store.
const SIDES: [&str; 3] = ["-wal", "-journal", "-shm"];

/// The part of a mode that says what others than the owner may do.
const OTHERS: u32 = 0o077;

/// The part that says whether others may write.
const WRITERS: u32 = 0o022;

/// What the system tells of the process that looks at it. Who runs the program owns it.
const PROCESS: &str = "/proc/self";

/// The house whose auctions are in the store of the current folder. They aren't modelled.
#[derive(Drop)]
pub struct StoreHouse<'a> {
    rt: &'a HostRuntime,
    faults: u64,
}

impl StoreHouse<'_> {
    /// The house in the current folder. There are no faults yet.
    pub fn of(rt: &HostRuntime) -> StoreHouse<'_>
        ensures { result.faults ≡ 0 }
    {
        StoreHouse { rt, faults: 0 }
    }
}

/// Counts the answer where it is a fault, and hands it on.
fn hand_on<T>(faults: &mut u64, answer: Result<T, Unopened>) -> Result<T, Unopened>
    ensures same { result ≡ answer }
    ensures causes { CausesUnopened result faults.old faults.new }
{
    if let Err(refusal) = &answer {
        if matches!(refusal.outside(), OutsideErr::Failed) {
            *faults = faults.saturating_add(1);
        }
    }
    answer
}

impl HousePlace for StoreHouse<'_> {
    type Kept = SqlKeeper<FileStore<File>>;

    ghost use Rattle.std.specs.Prelude.{None};

    ghost ledger = { λ _. None };

    ghost faults = { λ house. house.faults };

    ghost unmade = { λ _. ⊥ };

    /// Whether anything has the store's name.
    fn is_made(&mut self) -> Result<bool, Unopened> {
        let is_made = has_name(self.rt);
        hand_on(&mut self.faults, is_made)
    }

    /// The store is made where there is none.
    fn open(&mut self) -> Result<SqlKeeper<FileStore<File>>, Unopened> {
        let opened = open_store(self.rt);
        hand_on(&mut self.faults, opened)
    }

    /// What is kept in the log beside the store is copied into it. Where that fails nothing is
    /// lost, since the next opening finds the log; but the fault is told.
    fn close(&mut self, kept: SqlKeeper<FileStore<File>>) -> Result<(), OutsideErr> {
        match hand_on(&mut self.faults, close_store(kept)) {
            Ok(()) => Ok(()),
            Err(refusal) => Err(refusal.outside()),
        }
    }

    fn count_fault(&mut self) {
        self.faults = self.faults.saturating_add(1);
    }
}

/// The keeper over the store, which is made where there is none.
fn open_store(rt: &HostRuntime) -> Result<SqlKeeper<FileStore<File>>, Unopened> {
    let is_new = make_file(rt)?;
    admit(rt, rt.alloc(), is_new)?;
    match Connection::open(rt, STORE) {
        Ok(connection) => keeper_over(rt.alloc(), connection),
        Err(error) => Err(Unopened::Database(error)),
    }
}

// What follows is generic over what a store's files are: the prover takes much longer over those of
// the system.

/// The keeper over the store. One that is refused is closed.
fn keeper_over<D: Disk + Drop>(
    alloc: Global,
    connection: Connection<FileStore<D>>,
) -> Result<SqlKeeper<FileStore<D>>, Unopened> {
    match SqlKeeper::over(alloc, connection) {
        Ok(keeper) => Ok(keeper),
        Err((refusal, connection)) => {
            let _ = connection.close();
            Err(Unopened::Store(refusal))
        }
    }
}

/// Closes the store of a keeper.
fn close_store<D: Disk + Drop>(kept: SqlKeeper<FileStore<D>>) -> Result<(), Unopened> {
    match kept.close().close() {
        Ok(()) => Ok(()),
        Err(error) => Err(Unopened::Database(error)),
    }
}

/// Whether anything has the store's name.
fn has_name<R: Files>(rt: &R) -> Result<bool, Unopened> {
    match rt.symlink_metadata(STORE) {
        Ok(_) => Ok(true),
        Err(error) if error.kind() == ErrorKind::NotFound => Ok(false),
        Err(error) => Err(Unopened::File(error.kind())),
    }
}

/// Makes the empty file of the store, where nothing has its name. Whether it was made.
fn make_file<R: Files>(rt: &R) -> Result<bool, Unopened> {
    let made = OpenOptions::new()
        .write(true)
        .create_new(true)
        .mode(OWNER_ALONE)
        .open(rt, STORE);
    match made {
        Ok(_) => Ok(true),
        Err(error) if error.kind() == ErrorKind::AlreadyExists => Ok(false),
        Err(error) => Err(Unopened::File(error.kind())),
    }
}

/// Refuses a store whose own file is refused, or that has a file beside it which lets others in; and
/// a link to nothing, at whose end SQLite would make a file that is exposed.
fn admit<R: Files>(rt: &R, alloc: Global, is_new: bool) -> Result<(), Unopened> {
    let file = match fs::metadata(rt, STORE) {
        Ok(store) => own_file(&store),
        Err(error) => return Err(Unopened::File(error.kind())),
    };
    let runner = runner_for(rt, file, is_new)?;
    admit_own(file, runner)?;
    for end in SIDES {
        admit_beside(rt, alloc, end, file.access)?;
    }
    Ok(())
}

/// What the system tells of the store's own file.
#[derive(Clone, Copy)]
struct OwnFile {
    length: u64,
    /// How many names it has, as hard links.
    names: u64,
    access: Access,
}

/// The file of these metadata.
fn own_file(store: &Metadata) -> OwnFile {
    OwnFile {
        length: store.len(),
        names: store.nlink(),
        access: access_of(store),
    }
}

/// Who runs the program, where the file was there and that decides whether it is refused. Errs
/// where the system doesn't tell.
fn runner_for<R: Files>(rt: &R, file: OwnFile, is_new: bool) -> Result<Option<u32>, Unopened> {
    if is_new || file.length >= 2 || is_exposed(file.length, file.access.mode) {
        return Ok(None);
    }
    match fs::metadata(rt, PROCESS) {
        Ok(process) => Ok(Some(process.uid())),
        Err(error) => Err(Unopened::File(error.kind())),
    }
}

/// Refuses a file that is empty, and exposed or another user's than who runs the program; and one
/// with a second name, which SQLite doesn't open.
fn admit_own(file: OwnFile, runner: Option<u32>) -> Result<(), Unopened>
    ensures { result ≡ own_refusal file runner }
{
    if is_exposed(file.length, file.access.mode) {
        return Err(Unopened::Exposed);
    }
    if is_anothers(file, runner) {
        return Err(Unopened::Anothers);
    }
    if file.names > 1 {
        return Err(Unopened::Linked);
    }
    Ok(())
}

/// Refuses a store with a file beside it that lets others in. Where the store is a link, these are
/// beside the file that it leads to.
fn admit_beside<R: Files>(rt: &R, alloc: Global, end: &str, store: Access) -> Result<(), Unopened> {
    let path = match rt.canonicalize(alloc, STORE) {
        Ok(path) => path,
        Err(error) => return Err(Unopened::File(error.kind())),
    };
    let Ok(name) = format!(in alloc; "{}{end}", path.as_str()) else {
        return Err(Unopened::File(ErrorKind::OutOfMemory));
    };
    match rt.symlink_metadata(name.as_str()) {
        Ok(side) if lets_in(access_of(&side), store) => Err(Unopened::Beside),
        Ok(_) => Ok(()),
        Err(error) if error.kind() == ErrorKind::NotFound => Ok(()),
        Err(error) => Err(Unopened::File(error.kind())),
    }
}

/// Who may use a file.
#[derive(Clone, Copy)]
struct Access {
    mode: u32,
    owner: u32,
}

/// Who may use a file of these metadata.
fn access_of(file: &Metadata) -> Access {
    Access {
        mode: file.mode(),
        owner: file.uid(),
    }
}

/// Whether others may use a file of that length and mode, and SQLite takes it for empty, as it does
/// one of a single byte. What would be written into it they could read: it isn't closed to them
/// first, since they may have it open already.
fn is_exposed(length: u64, mode: u32) -> bool
    ensures { result ≡ is_exposed length mode }
{
    length < 2 && mode & OTHERS != 0
}

/// Whether the file, which SQLite takes for empty, is another user's than who runs the program. Its
/// owner could read what is written into it, whatever its mode is.
fn is_anothers(file: OwnFile, runner: Option<u32>) -> bool
    ensures { result ≡ is_anothers file runner }
{
    match runner {
        Some(runner) => file.length < 2 && file.access.owner != runner,
        None => false,
    }
}

/// Whether a file beside a store lets in whom the store doesn't: its mode allows others more; or
/// nobody but its owner may write into the store, and the file is another user's.
fn lets_in(side: Access, store: Access) -> bool
    ensures { result ≡ lets_in side store }
{
    let open = store.mode & OTHERS;
    let is_shared = store.mode & WRITERS != 0;
    (side.mode & OTHERS) | open != open || (!is_shared && side.owner != store.owner)
}
