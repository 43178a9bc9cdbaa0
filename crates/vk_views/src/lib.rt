//! What is opened of a lane tells no more than the outcome: for any other bids of that outcome as
//! many tapes give the same view.
#![tactic(auto)]

mod laws;
mod tapes;
mod views;

pub use laws::{
    bids_of_one_outcome_give_the_same_views, moved_tapes_give_the_same_views,
    moved_wires_show_the_same, rows_post_the_same, what_is_handed_out_is_the_views,
};
pub use tapes::{moved, moved_wire};
pub use views::{LaneView, view};
