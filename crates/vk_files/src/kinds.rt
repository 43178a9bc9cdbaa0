//! Which kinds of files are read and written.

ghost use Rattle.std.specs.Prelude.{◌≡◌, Ok, IsErrAnd};
ghost use Rattle.std.specs.Fs.{file_type, metadata_len, metadata_mode, IsFile};
ghost use Rattle.std.specs.IoError.{error_kind};
ghost use Rattle.vk_files.specs.Kinds.{is_folder, may_be_written, refusal_to_write, IsRefusal};

use std::fs::Metadata;
use std::io;
use std::io::ErrorKind;
use std::os::unix::fs::MetadataExt;

/// The part of a mode that says what kind of file it is, and three of the kinds.
const KIND: u32 = 0o170000;

const FOLDER: u32 = 0o040000;

const REGULAR: u32 = 0o100000;

const CHARACTERS: u32 = 0o020000;

/// The numbers of the devices `/dev/null` and `/dev/full`.
const NULL: u64 = 0x103;

const FULL: u64 = 0x107;

/// What the system tells of the kind of a file: its mode, and the number of the device that it is,
/// if it is one.
#[derive(Clone, Copy)]
pub struct Kind {
    mode: u32,
    device: u64,
}

impl Kind {
    /// The kind of the file of these metadata.
    pub fn of(metadata: &Metadata) -> Kind
        ensures { result.mode ≡ metadata_mode metadata.now }
    {
        Kind {
            mode: metadata.mode(),
            device: metadata.rdev(),
        }
    }

    /// Whether it is a folder.
    fn is_folder(self) -> bool
        ensures { result ≡ is_folder self }
    {
        self.mode & KIND == FOLDER
    }

    /// Whether it may be written: a regular file, `/dev/null`, which keeps nothing of what it
    /// takes, and `/dev/full`, which takes nothing. No other device may, no pipe and no socket: to
    /// open a pipe would wait for somebody who reads it.
    fn may_be_written(self) -> bool
        ensures { result ≡ may_be_written self }
    {
        match self.mode & KIND {
            REGULAR => true,
            CHARACTERS => self.device == NULL || self.device == FULL,
            _ => false,
        }
    }

    /// Why it may not be written, if so.
    fn refusal_to_write(self) -> Option<ErrorKind>
        ensures { result ≡ refusal_to_write self }
    {
        if self.may_be_written() {
            None
        } else if self.is_folder() {
            Some(ErrorKind::IsADirectory)
        } else {
            Some(ErrorKind::Unsupported)
        }
    }
}

/// Errs where a file of that kind may not be written.
pub fn admit_to_write(kind: Kind) -> io::Result<()>
    ensures { IsRefusal (refusal_to_write kind) result }
{
    match kind.refusal_to_write() {
        None => Ok(()),
        Some(refusal) => Err(io::Error::from(refusal)),
    }
}

/// The length of a file. A folder, a device, a pipe or a socket has none that tells what a read
/// gives, so it is an error.
pub fn file_length(metadata: &Metadata) -> io::Result<u64>
    ensures file { IsFile (file_type metadata.now) → result ≡ Ok (metadata_len metadata.now) }
    ensures other { ¬ (IsFile (file_type metadata.now))
        → IsErrAnd result (λ error. error_kind error ≡ ErrorKind.InvalidInput) }
{
    if metadata.is_file() {
        Ok(metadata.len())
    } else {
        Err(io::Error::from(ErrorKind::InvalidInput))
    }
}
