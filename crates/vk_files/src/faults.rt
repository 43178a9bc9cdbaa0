ghost use Rattle.std.specs.Prelude.{◌≡◌};
ghost use Rattle.vk_io.specs.Faults.{one_more};

use std::io;
use std::io::ErrorKind;
use std::marker::Model;

/// How many errors the system gave, which is its value, and what the last of them was.
#[derive(Drop)]
pub struct FaultCount {
    count: u64,
    reason: &'static str,
}

impl Model for FaultCount {
    ghost use Rattle.std.specs.Prelude.{ℕ};

    ghost Value = { ℕ };

    ghost view = { λ f. f.count };
}

impl FaultCount {
    /// No error so far.
    pub fn new() -> FaultCount
        ensures { result ≡ 0 }
    {
        FaultCount {
            count: 0,
            reason: "no fault",
        }
    }

    /// Counts one error more. At the greatest u64 the count stands still.
    pub fn count(&mut self, error: &io::Error)
        ensures { self.new ≡ one_more self.old }
    {
        self.count = self.count.saturating_add(1);
        self.reason = reason_of(error.kind());
    }

    /// What the last error was, for a person.
    pub fn reason(&self) -> &'static str {
        self.reason
    }
}

/// What an error of that kind is, for a person.
fn reason_of(kind: ErrorKind) -> &'static str {
    match kind {
        ErrorKind::NotFound => "it is gone",
        ErrorKind::PermissionDenied => "it may not be read or written here",
        ErrorKind::AlreadyExists => "it came to be meanwhile",
        ErrorKind::NotADirectory => "a part of its path is no folder",
        ErrorKind::IsADirectory => "it is a folder",
        ErrorKind::ReadOnlyFilesystem => "its file system is read-only",
        ErrorKind::FilesystemLoop => "its links lead in a circle",
        ErrorKind::InvalidInput => "it is no file whose bytes can be read",
        ErrorKind::Unsupported => "it is no file that can be written",
        ErrorKind::StorageFull => "the disk is full",
        ErrorKind::QuotaExceeded => "the quota is used up",
        ErrorKind::FileTooLarge => "it would be larger than the system allows",
        ErrorKind::BrokenPipe => "nobody reads it any more",
        ErrorKind::InvalidFilename => "the system takes no such name",
        ErrorKind::WriteZero => "the system takes no more of it",
        _ => "the system refuses it",
    }
}
