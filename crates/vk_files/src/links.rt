//! Links that lead to nothing yet.

ghost use Rattle.std.specs.Prelude.{◌≡◌, IfOk, string_bytes};
ghost use Rattle.vk_files.specs.Links.{leads_to};

use crate::store_names::folder_of;
use std::alloc::Global;
use std::path::Path;
use std::rt::Files;
use vk_residue::NoMemory;

/// How many links are followed from one name, as by Linux itself.
const MOST_LINKS: usize = 40;

/// The path that a link leads to: its target, which is beside the link where it doesn't begin at
/// the root.
fn led_to(alloc: Global, link: &str, target: &str) -> Result<String, NoMemory>
    ensures { IfOk result (λ path. string_bytes path ≡ leads_to link.now target.now) }
{
    let path = Path::new(folder_of(link)).join(alloc, target)?;
    Ok(path.into_string())
}

/// The path at which a file is made that is made under that name: the end of the links that begin
/// there. Of too many links it is one of them, at which no file can be made.
pub fn end_of_links<R: Files>(rt: &R, alloc: Global, name: &str) -> Result<String, NoMemory> {
    let mut path = String::from_str(alloc, name)?;
    for _link in 0..MOST_LINKS {
        match rt.read_link(alloc, path.as_str()) {
            Ok(target) => path = led_to(alloc, path.as_str(), target.as_str())?,
            Err(_) => return Ok(path),
        }
    }
    Ok(path)
}
