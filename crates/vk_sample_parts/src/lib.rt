//! What both samples are made of: the seals that are drawn from one number, the files of a proof, and
//! what is said of what both replies open.
#![tactic(auto)]

mod errors;
mod files;
mod making;
mod summary;

pub use errors::SampleErr;
pub use files::ProofFiles;
pub use making::seal_rows;
pub use summary::{found_lines, push, push_two, same_count};
