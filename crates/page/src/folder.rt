//! The files that are handed in.

ghost use Rattle.std.specs.Prelude.{◌≡◌, IfOk, OnOk};
ghost use Rattle.page.specs.Handed.{handed_files, with_handed};

use std::alloc::Global;
use std::str::from_utf8;
use vk_io::SureShelf;
use vk_residue::NoMemory;

/// A file that lies in the folder: its name, and what it holds.
#[repr(C)]
#[derive(Clone, Copy)]
pub struct NamedBytes<'a> {
    pub name: &'a [u8],
    pub bytes: &'a [u8],
}

/// Puts the file on the shelf. One whose name isn't UTF-8 is left out: no word of a command can be
/// that name.
#[tactic(auto, using(crate::proofs::Names::utf8_test, crate::proofs::Names::other_test))]
fn put_handed(shelf: &mut SureShelf, file: &NamedBytes<'_>) -> Result<(), NoMemory>
    ensures { OnOk result (shelf.new.files ≡ with_handed shelf.old.files file.now) }
{
    match from_utf8(file.name) {
        Ok(name) => {
            shelf.put_file(name, file.bytes)?;
            Ok(())
        }
        Err(_) => Ok(()),
    }
}

/// A shelf with the files that are handed in.
pub fn shelf_of(alloc: Global, handed: &[NamedBytes<'_>]) -> Result<SureShelf, NoMemory>
    ensures { IfOk result (λ shelf. shelf.files ≡ handed_files handed.now) }
{
    let mut shelf = SureShelf::new(alloc);
    for file in handed {
        put_handed(&mut shelf, file)?;
    }
    Ok(shelf)
}
