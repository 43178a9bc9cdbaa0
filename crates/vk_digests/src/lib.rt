//! SHA-256 of messages of 68 bytes, four side by side; and what is made of two digests.
#![tactic(auto)]

mod blocks;
mod constants;
mod hashing;
mod rounds;
mod two;
mod words;

pub use hashing::digests;
pub use two::TwoDigests;
