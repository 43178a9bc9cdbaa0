ghost use Rattle.std.specs.Prelude.{◌≡◌, OnOk, true};
ghost use Rattle.vk_files.specs.Identity.{is_named, is_named_otherwise};

use crate::file_id::FileId;
use std::alloc::Global;
use vk_residue::NoMemory;

/// A file, and a name that it was opened by.
#[derive(Drop)]
pub struct NamedId {
    id: FileId,
    name: String,
}

/// Whether the file was opened by that name.
fn is_named(opened: &[NamedId], id: FileId, name: &str) -> bool
    ensures { result ≡ is_named opened.now id name.now }
{
    opened
        .iter()
        .any(|file| file.id.is_same(id) && file.name.as_str() == name)
}

/// Whether the file was opened by another name.
pub fn is_named_otherwise(opened: &[NamedId], id: FileId, name: &str) -> bool
    ensures { result ≡ is_named_otherwise opened.now id name.now }
{
    opened
        .iter()
        .any(|file| file.id.is_same(id) && file.name.as_str() != name)
}

/// Notes that the file was opened by that name, where it isn't noted yet.
pub fn note(
    alloc: Global,
    opened: &mut Vec<NamedId>,
    id: FileId,
    name: &str,
) -> Result<(), NoMemory>
    ensures { OnOk result (is_named opened.new.items id name.now ≡ true) }
{
    if is_named(opened, id, name) {
        return Ok(());
    }
    let name = String::from_str(alloc, name)?;
    opened.push(NamedId { id, name })?;
    Ok(())
}
