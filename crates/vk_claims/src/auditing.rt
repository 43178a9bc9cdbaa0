//! A command on claims over a shelf of files.

ghost use Rattle.vk_words.specs.Claims.{claim_order_seen};
ghost use Rattle.vk_audit.specs.Audits.{SaysOf};
ghost use Rattle.vk_claims.specs.Orders.{claim_said};

use crate::circuits::ClaimCircuits;
use crate::extractions::claim_extracted;
use crate::verdicts::claim_judged;
use std::alloc::Global;
use vk_audit::unread;
use vk_claim::{extract_claim, judge_claim};
use vk_effect::Said;
use vk_io::{OutsideErr, Shelf};
use vk_words::ClaimOrder;

/// Reads the named files, and says what they come to.
pub fn audit_claim<S: Shelf>(
    alloc: Global,
    shelf: &mut S,
    order: &ClaimOrder<'_>,
) -> Result<Said, OutsideErr>
    ensures { SaysOf S.held S.Shelf.faults
        (λ files. claim_said files (claim_order_seen order.now)) result shelf.old shelf.new }
{
    match order {
        ClaimOrder::Verify(names) => {
            let said = match judge_claim(alloc, shelf, &ClaimCircuits, names) {
                Ok(answer) => claim_judged(alloc, names, answer)?,
                Err(fault) => unread(alloc, names, fault)?,
            };
            Ok(said)
        }
        ClaimOrder::Extract(names) => {
            let said = match extract_claim(alloc, shelf, &ClaimCircuits, names) {
                Ok(extraction) => claim_extracted(alloc, names, &extraction)?,
                Err(fault) => unread(alloc, names, fault)?,
            };
            Ok(said)
        }
    }
}
