//! A growing list of values, which contracts see as a list wherever it stands in another type.
#![tactic(auto)]

mod seq;

pub use seq::Seq;
