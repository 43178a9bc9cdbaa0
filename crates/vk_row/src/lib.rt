//! Whole lanes: posted differences, the check of a row, and the check of what is shown of a lane.
#![tactic(auto)]

mod case;
mod lane;
mod laws;
mod row;
mod wires;

pub use case::{LaneCase, LaneFault};
pub use lane::{check_lane, check_lane_with};
pub use laws::checked_lanes_are_those_accepted;
pub use row::{check, posted};
