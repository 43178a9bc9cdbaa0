//! What is said of one named file.

ghost use Rattle.std.specs.Prelude.{◌≡◌, IfOk};
ghost use Rattle.vk_effect.specs.NamedFiles.{malformed_said, missing_said, refused_said, too_long_said};

use crate::said::Said;
use std::alloc::Global;
use vk_residue::NoMemory;

/// The line of a file that isn't held.
pub fn missing(alloc: Global, name: &str) -> Result<Said, NoMemory>
    ensures { IfOk result (λ said. said ≡ missing_said name.now) }
{
    let line = format!(in alloc; "missing {name}\n")?;
    let said = Said::of_line(alloc, 5, line.as_str())?;
    Ok(said)
}

/// The line of a file that has too many bytes.
pub fn too_long(alloc: Global, name: &str) -> Result<Said, NoMemory>
    ensures { IfOk result (λ said. said ≡ too_long_said name.now) }
{
    let line = format!(in alloc; "too long {name}\n")?;
    let said = Said::of_line(alloc, 4, line.as_str())?;
    Ok(said)
}

/// The line of a file whose line of that number, from 1, is the first that isn't what its place
/// demands.
pub fn say_malformed(alloc: Global, name: &str, line: u64) -> Result<Said, NoMemory>
    ensures { IfOk result (λ said. said ≡ malformed_said name.now line) }
{
    let line = format!(in alloc; "malformed {name} line {line}\n")?;
    let said = Said::of_line(alloc, 4, line.as_str())?;
    Ok(said)
}

/// The line of a file of its form that is refused, and for what.
pub fn say_refused(alloc: Global, name: &str, cause: &str) -> Result<Said, NoMemory>
    ensures { IfOk result (λ said. said ≡ refused_said name.now cause.now) }
{
    let line = format!(in alloc; "refused {name} {cause}\n")?;
    let said = Said::of_line(alloc, 1, line.as_str())?;
    Ok(said)
}
