//! The second-price auction: its outcome and its sale under a reserve, and the plans that show
//! these of hidden bids.
#![tactic(auto)]

mod board_plan;
mod counts;
mod forms;
mod laws;
mod outcomes;
mod plan;
mod reserve;
mod reserve_circuit;
mod sales;

pub use board_plan::BoardPlan;
pub use counts::{
    board_row_count, board_wire_count, row_count, sale_row_count, sale_wire_count, wire_count,
};
pub use laws::{first_holders_are_selected, sales_are_published_within_limits};
pub use outcomes::{VickreyOutcome, outcome};
pub use plan::VickreyPlan;
pub use reserve::ReservePlan;
pub use sales::{Sale, sale_of, sales_extend_outcomes};
