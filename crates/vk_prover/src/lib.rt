//! The honest prover of one lane: its tape, what it publishes, and its replies, which are accepted.
#![tactic(auto)]

mod honest;
mod laws;
mod tape;

pub use honest::{answer_lane, make_lane, make_lane_with};
pub use laws::{
    honest_lanes_are_of_their_form, honest_replies_are_accepted,
    replies_of_held_values_are_accepted,
};
pub use tape::{DrawErr, LaneTape, draw_tape, draw_wires, first_dry};
