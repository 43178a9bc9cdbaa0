//! `sample`: a whole auction from one number. Its seals, its board and both replies are made,
//! written, read back, judged and extracted.
#![tactic(auto)]

mod files;
mod laws;
mod making;
mod sampling;
mod summary;

pub use laws::{a_sample_is_accepted_and_opened, a_sample_is_an_auction};
pub use sampling::sample;
