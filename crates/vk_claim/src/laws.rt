//! What holds of all claim files and their parts, and of all other files.

ghost use Rattle.std.specs.Prelude.{◌≡◌, ℕ, List};
ghost use Rattle.std.specs.Result.{result_err};
ghost use Rattle.vk_judge.specs.Common.{AcceptedGive, FaultsAllButTexts, FindsByBoth, IsPart, IsWhole, fault_line, whole};
ghost use Rattle.vk_board.specs.Values.{Shape};
ghost use Rattle.vk_claim.specs.declared.front.ClaimHead.{ClaimHead};
ghost use Rattle.vk_claim.specs.Values.{IsClaimFile, IsClaimFront, IsClaimHead};
ghost use Rattle.vk_claim.specs.Texts.{claim_front_text, claim_head_text, claim_text};
ghost use Rattle.vk_claim.specs.Reading.{claim_file_at, claim_front_at, claim_head_at};
ghost use Rattle.vk_claim.specs.Tables.{claim_table};
ghost use Rattle.vk_claim.specs.Acceptance.{ClaimVerdictsAreExact, claim_form};
ghost use Rattle.vk_claim.specs.Claims.{claim_at};
ghost use Rattle.vk_claim.specs.Two.{ClaimFilesGive};
ghost use Rattle.vk_claim.specs.Extraction.{AcceptedClaimsOpen, ClaimFilesAreExtracted};
ghost use Rattle.vk_bids.specs.FileHeadline.{ExtractsByFinding, OnlyAcceptedOpenFile};

use crate::circuits::Circuits;

/// A law: a claim file is read from its text, and from no other bytes; so are its head, and what
/// stands before its first lane, where their texts stand.
pub fn claim_files_are_read_from_their_texts_alone()
    ensures heads { IsPart IsClaimHead claim_head_text claim_head_at }
    ensures fronts { IsPart IsClaimFront claim_front_text claim_front_at }
    ensures files { (shape : ClaimHead → Shape)
        → IsWhole (IsClaimFile shape) claim_text (claim_file_at shape) }
{}

/// A law: a file has no fault line exactly where it is the text of a claim file, and else reading
/// stops at its fault line.
pub fn all_but_claim_files_have_a_fault_line()
    ensures texts { (shape : ClaimHead → Shape)
        → FaultsAllButTexts (IsClaimFile shape) claim_text (claim_table shape) }
    ensures stops { (shape : ClaimHead → Shape) (bytes : List ℕ)
        → fault_line (claim_table shape) bytes ≡ result_err (whole (claim_file_at shape) bytes) }
{}

/// A law, of any circuits: each verdict on a claim file, a challenge and a reply is given exactly
/// where it holds: that there is no fault where they are the texts of such and the reply is
/// accepted; that the public part is not admitted; and each fault, where all that is read before it
/// is right and accepted.
pub fn claim_verdicts_are_given_exactly_where_they_hold<Q: Circuits>()
    ensures { (circuits : Q) → ClaimVerdictsAreExact (Q.admitted circuits) }
{}

/// A law, of any circuits and any five files: where both replies are accepted with one claim file
/// and the challenges differ, they come to the values of just the lanes whose two bits differ. In
/// each of these they open the lane's seals by what the replies show, and the file's claim holds of
/// them. Or they come to a clash: of the first of these lanes that has one, the first commitment
/// with two openings of different values.
///
/// Only such files come to values or a clash. What named files come to is that of their bytes.
pub fn accepted_claims_open_values_or_clash<Q: Circuits>()
    ensures given { (circuits : Q) → AcceptedClaimsOpen (Q.admitted circuits) (Q.claim circuits) }
    ensures only { (circuits : Q) → OnlyAcceptedOpenFile (claim_form (Q.admitted circuits)) }
    ensures files { (circuits : Q) → ClaimFilesAreExtracted (Q.admitted circuits) }
{}

/// A law, of any circuits: what a checker of two replies to a claim file gives and finds. What is
/// found is what judging both comes to, and so is what is extracted of them. Two accepted replies
/// are to one front, and give the lanes 1, 2, .. of the claim file whose text the file is, each
/// with what the replies show of it. What named files give is what their bytes do.
pub fn claims_are_checked_by_both_verdicts<Q: Circuits>()
    ensures found { (circuits : Q) → FindsByBoth (claim_at (Q.admitted circuits)) }
    ensures extracted { (circuits : Q) → ExtractsByFinding (claim_form (Q.admitted circuits)) }
    ensures given { (circuits : Q) → AcceptedGive (claim_form (Q.admitted circuits)) }
    ensures files { (circuits : Q) → ClaimFilesGive (Q.admitted circuits) }
{}
