ghost use Rattle.std.specs.Prelude.{◌≡◌, ◌++◌, OnOk, OnErr};

use vk_residue::NoMemory;

/// Puts the piece behind the bytes. Errs for want of memory alone, and then these are as before.
pub fn put_behind(bytes: &mut Vec<u8>, piece: &[u8]) -> Result<(), NoMemory>
    ensures put { OnOk result (bytes.new.items ≡ bytes.old.items ++ piece.now) }
    ensures as_before { OnErr result (bytes.new.items ≡ bytes.old.items) }
{
    bytes.extend_from_slice(piece)?;
    Ok(())
}
