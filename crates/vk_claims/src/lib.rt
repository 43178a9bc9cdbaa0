//! What the commands on claims say of the files that they read, the circuits that claims may be of,
//! and `claim-sample`: a claim from one number. Three equal units are sold to ten bidders at one
//! price, or four men and four women are matched so that no pair blocks. Its seals, its file and
//! both replies are made, written, read back, judged and extracted.
#![tactic(auto)]

mod auditing;
mod circuits;
mod extractions;
mod files;
mod laws;
mod making;
mod names;
mod numbers;
mod reading;
mod sample_laws;
mod sampling;
mod summary;
mod verdicts;

pub use auditing::audit_claim;
pub use circuits::ClaimCircuits;
pub use extractions::claim_extracted;
pub use laws::{
    a_part_is_admitted_where_its_circuit_is, statuses_of_claims_mean_what_the_files_are,
};
pub use sample_laws::a_claim_sample_is_accepted_and_opened;
pub use sampling::claim_sample;
pub use verdicts::{claim_judged, claim_refused};
