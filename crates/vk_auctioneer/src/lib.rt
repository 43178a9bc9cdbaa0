//! The auctioneer's commands: what each asks the house, which files it reads and writes, and what
//! it says.
#![tactic(auto)]

mod command;
mod laws;
mod publishing;
mod refusals;
mod standing;
mod submitting;

pub use command::house_command;
pub use laws::{what_is_read_is_what_the_files_are, what_is_written_is_of_the_ledger};
