//! Several equal units sold at one price: who wins, what they pay, and the plan that shows it of
//! hidden bids.
#![tactic(auto)]

mod circuit;
mod forms;
mod numbers;
mod outcomes;
mod plan;

pub use outcomes::{UniformOutcome, one_outcome_for_each_number, uniform};
pub use plan::UniformPlan;
