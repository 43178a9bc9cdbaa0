//! Auctions kept in an SQLite store: a keeper whose `put` is one transaction, and whose `get`
//! answers an auction or says that the store is at fault.
#![tactic(auto)]

mod errors;
mod finding;
mod keeping;
mod layout;
mod lifting;
mod seals;
mod sql_keeper;
mod statements;
mod tables;

pub use errors::OpenErr;
pub use sql_keeper::SqlKeeper;
