//! What holds of the claim of every number.

ghost use Rattle.vk_claims.specs.Laws.{ClaimSampleIsAccepted, HasSize, OfEachClaim, ClaimSampleOpensAll};

/// A law: of every number none of whose seeds is dry, the claim of equal units has 10 inputs, 8
/// lanes, and as many wires and rows as its circuit has for the published numbers, and that of a
/// matching, whichever stable one it is, 32 inputs, 8 lanes, 548 wires and 88 rows. What is written
/// is its file and the honest prover's replies to both challenges, and both are accepted. Read back
/// from modelled files, they open values in all 8 lanes, of all seals the same.
pub fn a_claim_sample_is_accepted_and_opened()
    ensures size { OfEachClaim HasSize }
    ensures accepted { OfEachClaim ClaimSampleIsAccepted }
    ensures opened { OfEachClaim ClaimSampleOpensAll }
{}
