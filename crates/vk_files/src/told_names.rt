//! Names of files that the system told to be there.

ghost use Rattle.std.specs.Prelude.{◌≡◌, OnOk, false, true};
ghost use Rattle.vk_files.specs.Identity.{is_told};

use std::alloc::Global;
use vk_residue::NoMemory;

/// Whether it is one of the names.
pub fn is_told(told: &[String], name: &str) -> bool
    ensures { result ≡ is_told told.now name.now }
{
    told.iter().any(|other| other.as_str() == name)
}

/// Notes whether the file of that name is there.
pub fn tell(
    alloc: Global,
    told: &mut Vec<String>,
    name: &str,
    is_there: bool,
) -> Result<(), NoMemory>
    ensures { OnOk result (is_told told.new.items name.now ≡ is_there) }
{
    if is_there {
        add(alloc, told, name)
    } else {
        forget(told, name);
        Ok(())
    }
}

/// Notes the name, where it isn't noted yet.
fn add(alloc: Global, told: &mut Vec<String>, name: &str) -> Result<(), NoMemory>
    ensures { OnOk result (is_told told.new.items name.now ≡ true) }
{
    if is_told(told, name) {
        return Ok(());
    }
    let name = String::from_str(alloc, name)?;
    told.push(name)?;
    Ok(())
}

/// Takes the name out.
fn forget(told: &mut Vec<String>, name: &str)
    ensures { is_told told.new.items name.now ≡ false }
{
    told.retain(|other| other.as_str() != name);
}
