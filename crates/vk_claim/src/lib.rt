//! Claim files: sealed values of which a public part claims something, shown lane by lane by the
//! circuit of that part. They are judged and extracted as boards are, for every circuit.
#![tactic(auto)]

mod circuits;
mod claim;
mod extraction;
mod front;
mod laws;
mod printing;
mod two;
mod verdict;

pub use circuits::Circuits;
pub use claim::{Claim, ClaimRefusal, read_claim};
pub use extraction::{ClaimExtraction, OpenedClaim, extract_claim};
pub use front::{ClaimFront, ClaimHead, claim_head_text, read_claim_front};
pub use laws::{
    accepted_claims_open_values_or_clash, all_but_claim_files_have_a_fault_line,
    claim_files_are_read_from_their_texts_alone, claim_verdicts_are_given_exactly_where_they_hold,
    claims_are_checked_by_both_verdicts,
};
pub use printing::claim_extraction_lines;
pub use two::{ClaimChecker, ClaimFinding};
pub use verdict::{ClaimVerdict, claim_verdict, judge_claim};
pub use vk_words::Kind;
