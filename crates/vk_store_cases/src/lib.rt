//! What is done to auctions in SQLite stores in memory, as cases: commands of a house between which
//! the store is closed and opened again, statements that change it, stores of other programs, and
//! commands that are stopped at each call of the store's files.
#![tactic(auto)]

mod commands;
mod lent;
mod sessions;
mod stopping;
mod stores;
mod texts;

pub use sessions::{change_text, file_text, house_text};
pub use stopping::stop_text;
