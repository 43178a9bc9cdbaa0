//! Stable matchings of so many men and as many women: one is proposed, of their ranks, and a plan
//! shows of hidden ranks that no pair blocks a published one.
#![tactic(auto)]

mod circuit;
mod courting;
mod either;
mod numbers;
mod plan;
mod proposing;

pub use either::{EitherAtLeast, either_is_at_least};
pub use plan::MatchingPlan;
pub use proposing::propose;
