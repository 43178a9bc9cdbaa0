//! The names of the files of a store of SQLite, and the folders that they are in.

ghost use Rattle.std.specs.Prelude.{◌≡◌, map, string_bytes, IfOk};
ghost use Rattle.vk_files.specs.Store.{is_ending, is_store_name, store_files, shares_store_name, folder_of};

use std::alloc::Global;
use std::path::Path;
use vk_residue::NoMemory;

/// Whether that is what stands behind the store's name in the name of one of its files: nothing, or
/// what SQLite puts there for the log, the log's index and a journal.
fn is_ending(ending: &str) -> bool
    ensures { result ≡ is_ending ending.now }
{
    ending == "" || ending == "-wal" || ending == "-shm" || ending == "-journal"
}

/// Whether the name is that of a file of the store.
fn is_store_name(name: &str, store: &str) -> bool
    ensures { result ≡ is_store_name name.now store.now }
{
    match name.strip_prefix(store) {
        Some(ending) => is_ending(ending),
        None => false,
    }
}

/// Whether the last name of the path is that of a file of the store at the other path, whichever
/// folders they are in.
pub fn shares_store_name(path: &str, store: &str) -> bool
    ensures { result ≡ shares_store_name path.now store.now }
{
    match (Path::new(path).file_name(), Path::new(store).file_name()) {
        (Some(name), Some(store)) => is_store_name(name, store),
        _ => false,
    }
}

/// The folder that the file at the path is in.
pub fn folder_of(path: &str) -> &str
    ensures { result.now ≡ folder_of path.now }
{
    match Path::new(path).parent() {
        Some(folder) if folder.as_str() != "" => folder.as_str(),
        _ => ".",
    }
}

/// The paths of the files of the store at that path.
pub fn store_files(alloc: Global, store: &str) -> Result<[String; 4], NoMemory>
    ensures { IfOk result (λ paths. map string_bytes paths ≡ store_files store.now) }
{
    let log = format!(in alloc; "{store}-wal")?;
    let index = format!(in alloc; "{store}-shm")?;
    let journal = format!(in alloc; "{store}-journal")?;
    let store = String::from_str(alloc, store)?;
    Ok([store, log, index, journal])
}
