//! A short text, put together without taking memory.
#![tactic(auto)]

mod short;

pub use short::ShortText;
