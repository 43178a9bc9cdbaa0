//! How files of the system are found, opened and synced.

ghost use Rattle.std.specs.Prelude.{◌≡◌, ◌↔◌, Some, None, Ok, Err, IfOk, IfErr, IfNone, IfSome, IsErrAnd, IsOk, IsSome, false, true, IsTrue};
ghost use Rattle.std.specs.Fs.{new_options, asks_create_new, file_type, metadata_len, IsFile};
ghost use Rattle.std.specs.IoError.{error_kind};
ghost use Rattle.vk_files.specs.Opening.{HasNoPlace, IsMissing};

use crate::file_id::FileId;
use crate::kinds::{Kind, admit_to_write, file_length};
use std::fs::{Metadata, OpenFile, OpenOptions};
use std::io::ErrorKind;
use std::os::unix::fs::OpenOptionsExt;
use std::rt::Files;
use std::{fs, io};

/// Who may read and write a file that is made anew: its owner alone, since a bidder's secret may be
/// in it. No umask widens this. A file that is there keeps what it has.
const OWNER_ALONE: u32 = 0o600;

/// What is there. None where nothing is at the path, or a part of it is no folder.
pub fn none_where_absent<T>(outcome: io::Result<T>) -> io::Result<Option<T>>
    ensures there { IfOk outcome (λ there. result ≡ Ok (Some there)) }
    ensures missing { IfErr outcome (λ error. IsMissing error → result ≡ Ok None) }
    ensures error { IfErr outcome (λ error. ¬ (IsMissing error) → result ≡ Err error) }
{
    match outcome {
        Ok(there) => Ok(Some(there)),
        Err(error) if is_missing(&error) => Ok(None),
        Err(error) => Err(error),
    }
}

/// Whether the error says that nothing is at the path, or that a part of it is no folder.
fn is_missing(error: &io::Error) -> bool
    ensures { IsTrue result ↔ IsMissing error.now }
{
    error.kind() == ErrorKind::NotFound || error.kind() == ErrorKind::NotADirectory
}

/// The length of the file that was looked at. None where nothing is there. A folder, a device, a
/// pipe or a socket is an error.
fn length_seen(looked: io::Result<Metadata>) -> io::Result<Option<u64>>
    ensures file { IfOk looked (λ there. IsFile (file_type there)
        → result ≡ Ok (Some (metadata_len there))) }
    ensures other { IfOk looked (λ there. ¬ (IsFile (file_type there))
        → IsErrAnd result (λ error. error_kind error ≡ ErrorKind.InvalidInput)) }
    ensures missing { IfErr looked (λ error. IsMissing error → result ≡ Ok None) }
    ensures error { IfErr looked (λ error. ¬ (IsMissing error) → result ≡ Err error) }
{
    match none_where_absent(looked)? {
        Some(metadata) => {
            let length = file_length(&metadata)?;
            Ok(Some(length))
        }
        None => Ok(None),
    }
}

/// The length of the file at the path.
pub fn length_of<R: Files>(rt: &R, path: &str) -> io::Result<Option<u64>> {
    length_seen(fs::metadata(rt, path))
}

/// Which file or folder is at the path. None where nothing is there, or where it can't be told.
pub fn id_at<R: Files>(rt: &R, path: &str) -> io::Result<Option<FileId>> {
    match none_where_absent(fs::metadata(rt, path))? {
        Some(metadata) => Ok(FileId::of(&metadata)),
        None => Ok(None),
    }
}

/// The same file. Where there is none it errs if one was there before.
fn still_there<T>(file: Option<T>, was_there: bool) -> io::Result<Option<T>>
    ensures there { IfSome file (λ there. result ≡ Ok (Some there)) }
    ensures none { IfNone file (was_there ≡ false → result ≡ Ok None) }
    ensures gone { IfNone file (was_there ≡ true
        → IsErrAnd result (λ error. error_kind error ≡ ErrorKind.NotFound)) }
{
    match file {
        Some(there) => Ok(Some(there)),
        None if was_there => Err(io::Error::from(ErrorKind::NotFound)),
        None => Ok(None),
    }
}

/// The file at the path, opened to be read. None where nothing is there. What is no file is looked
/// at and not opened, since a pipe would wait for somebody who writes it.
fn find_to_read<R: Files>(rt: &R, path: &str) -> io::Result<Option<R::File>> {
    match length_of(rt, path)? {
        Some(_length) => none_where_absent(fs::open(rt, path)),
        None => Ok(None),
    }
}

/// The file at the path, opened to be read. Where nothing is there it errs if the system told
/// before that a file is.
pub fn open_to_read<R: Files>(rt: &R, path: &str, was_there: bool) -> io::Result<Option<R::File>>
    ensures { IfOk result (λ found. was_there ≡ true → IsSome found) }
{
    still_there(find_to_read(rt, path)?, was_there)
}

/// How a file is opened that is to be written, at its end or from its front on: as it is, neither
/// made nor cut.
fn to_write(at_end: bool) -> OpenOptions
    ensures { result ≡ record new_options { write = true; append = at_end } }
{
    let mut options = OpenOptions::new();
    options.write(true).append(at_end);
    options
}

/// The file at the path as it is, opened to be written. None where nothing is there. What may not
/// be written is looked at and not opened, since a pipe would wait for somebody who reads it.
pub fn open_to_write<R: Files>(rt: &R, path: &str, at_end: bool) -> io::Result<Option<R::File>> {
    match none_where_absent(fs::metadata(rt, path))? {
        Some(metadata) => {
            admit_to_write(Kind::of(&metadata))?;
            none_where_absent(to_write(at_end).open(rt, path))
        }
        None => Ok(None),
    }
}

/// A new file at the path, opened to be written. It errs where anything is there, a link to nothing
/// too: so what is made is at this path, and at no other.
pub fn make_to_write<R: Files>(rt: &R, path: &str, at_end: bool) -> io::Result<R::File> {
    to_make(at_end).open(rt, path)
}

/// How a file is opened that is made for that: never one that is there.
fn to_make(at_end: bool) -> OpenOptions
    ensures { asks_create_new result ≡ true }
{
    let mut options = to_write(at_end);
    options.mode(OWNER_ALONE);
    options.create_new(true);
    options
}

/// What a sync comes to. One that the system refuses since what was written has no place is done:
/// such a file is as good as its last write. Any other error is one.
fn settle_sync(synced: io::Result<()>) -> io::Result<()>
    ensures synced { IfOk synced (λ done. result ≡ Ok done) }
    ensures no_place { IfErr synced (λ error. HasNoPlace error → IsOk result) }
    ensures error { IfErr synced (λ error. ¬ (HasNoPlace error) → result ≡ Err error) }
{
    match synced {
        Err(error) if !has_no_place(&error) => Err(error),
        _ => Ok(()),
    }
}

/// Whether the error says that what was written has no place where it is synced to.
fn has_no_place(error: &io::Error) -> bool
    ensures { IsTrue result ↔ HasNoPlace error.now }
{
    error.kind() == ErrorKind::InvalidInput
}

/// Waits until what was written is where it belongs.
pub fn sync_written<F: OpenFile>(file: &F) -> io::Result<()> {
    settle_sync(file.sync_data())
}
