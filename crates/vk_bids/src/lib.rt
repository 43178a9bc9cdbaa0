//! What two replies come to: where both are accepted and the challenges differ, they open the
//! values of the lanes whose bits differ, for which the circuit holds; or there are two openings of
//! one commitment. On a board the values are bids, and the sale that they make under its reserve is
//! the published one. And what a bidder's secret comes to against them.
#![tactic(auto)]

mod bids;
mod clash_printing;
mod confront_printing;
mod confrontation;
mod extracting;
mod extraction;
mod file_extraction;
mod gathering;
mod lane_extraction;
mod laws;
mod printing;

pub use bids::{LaneBids, OpenedBid};
pub use clash_printing::{clash_line, openings_line};
pub use confront_printing::confrontation_line;
pub use confrontation::{ConfrontErr, Confrontation, SecretAndReplies, confront};
pub use extracting::extract_bids;
pub use extraction::{Extracted, Extraction, extract};
pub use file_extraction::{FileExtraction, OpenedFile, extract_checked, extract_file};
pub use gathering::add_lane;
pub use lane_extraction::OpenedLanes;
pub use laws::{
    a_secret_is_bound_by_accepted_replies, accepted_lanes_open_values,
    accepted_lanes_show_the_outcome, accepted_replies_give_bids_or_a_clash,
    accepted_replies_open_values_or_clash,
};
pub use printing::{add_agreements, add_lanes, extraction_lines, has_one_bid, sale_line};
pub use vk_judge::TwoReplies;
