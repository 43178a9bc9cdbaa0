// The files of a sample's claim, as they are read back.
ghost use Rattle.std.specs.Prelude.{◌≡◌, IfOk, IfSome, IsErrOf, string_bytes};
ghost use Rattle.std.specs.List.{flat_map};
ghost use Rattle.vk_judge.specs.Common.{MemoryWasWanting, OnlyReads};
ghost use Rattle.vk_claims.specs.Texts.{claim_read, read_said};

use crate::circuits::ClaimCircuits;
use crate::names::claim_names;
use crate::summary::say_read_back;
use std::alloc::Global;
use vk_audit::unread;
use vk_claim::extract_claim;
use vk_effect::Said;
use vk_io::{OutsideErr, Shelf};

/// Reads the files back. Where both replies are accepted and open values, the summary is said,
/// behind these lines of the claim as it was made; else what `claim-extract` says.
pub fn read_back<S: Shelf>(
    alloc: Global,
    shelf: &mut S,
    made: Vec<String>,
) -> Result<Said, OutsideErr>
    ensures said { IfSome (S.held shelf.old)
        (λ files. IfOk result (λ said. said
        ≡ read_said (flat_map string_bytes made.items) (claim_read files))) }
    ensures wanting { IsErrOf result OutsideErr.NoMemory → MemoryWasWanting }
    ensures shelf { OnlyReads S.held S.Shelf.faults OutsideErr.Failed result shelf.old shelf.new }
{
    let names = claim_names();
    let said = match extract_claim(alloc, shelf, &ClaimCircuits, &names) {
        Ok(extraction) => say_read_back(alloc, made, &extraction)?,
        Err(fault) => unread(alloc, &names, fault)?,
    };
    Ok(said)
}
