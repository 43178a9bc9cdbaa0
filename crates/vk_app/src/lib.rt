//! The top call: what the words of a command line do, over any shelf of files, any keeper of
//! auctions and any sink of text.
#![tactic(auto)]

mod command;
mod laws;
mod seal;
mod usage;

pub use command::run;
pub use laws::{every_answer_of_an_auction_is_the_same, what_is_answered_is_accepted};
pub use seal::dry_seed;
