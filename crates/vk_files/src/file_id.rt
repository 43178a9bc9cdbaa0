ghost use Rattle.std.specs.Prelude.{◌≡◌};
ghost use Rattle.std.specs.List.{list_any};
ghost use Rattle.vk_files.specs.Identity.{same_file, are_same};

use std::fs::Metadata;
use std::os::unix::fs::MetadataExt;

/// Which file it is, by whatever name it was reached: the number of its device, and its number
/// there.
#[derive(Clone, Copy, Drop)]
pub struct FileId {
    device: u64,
    node: u64,
}

impl FileId {
    /// Which file that is. None where it can't be told: no file has the number 0, and what stands
    /// in for the file system may give no other.
    pub fn of(metadata: &Metadata) -> Option<FileId> {
        match metadata.ino() {
            0 => None,
            node => Some(FileId {
                device: metadata.dev(),
                node,
            }),
        }
    }

    /// Whether both are one file.
    pub fn is_same(self, other: FileId) -> bool
        ensures { result ≡ same_file self other }
    {
        self.device == other.device && self.node == other.node
    }

    /// Whether it is one of those files.
    pub fn is_one_of(self, others: &[FileId]) -> bool
        ensures { result ≡ list_any (same_file self) others.now }
    {
        others.iter().any(|other| self.is_same(*other))
    }
}

/// Whether both are told, and one file.
pub fn are_same(one: Option<FileId>, other: Option<FileId>) -> bool
    ensures { result ≡ are_same one other }
{
    match (one, other) {
        (Some(one), Some(other)) => one.is_same(other),
        _ => false,
    }
}
