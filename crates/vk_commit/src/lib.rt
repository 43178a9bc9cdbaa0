//! Commitments to residues: where one stands, its digest, and two openings of one digest.
#![tactic(auto)]

mod commitment;
mod laws;
mod place;
mod two_openings;

pub use commitment::{commit, commit_four, opens, opens_made};
pub use laws::{commitments_are_bytes, messages_tell_values_apart};
pub use place::{Opening, Place};
pub use two_openings::TwoOpenings;
