//! What two accepted challenges of one lane give: the values of its wires, or two openings of one
//! commitment. And a bidder's secret against what is shown of it in a lane.
#![tactic(auto)]

mod clash;
mod confronting;
mod lane;
mod laws;
mod values;

pub use confronting::confront;
pub use lane::{LaneErr, extract_lane};
pub use laws::{clashes_are_first, clashes_are_two_openings, extracted_values_hold};
