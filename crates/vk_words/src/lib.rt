//! The words of a command line, and of a line of a script: which command they are.
#![tactic(auto)]

mod advice;
mod audits;
mod claim;
mod coins;
mod command;
mod hints;
mod kinds;
mod laws;
mod names;
mod orders;
mod script;
mod table;
mod usage;
mod word;

pub use advice::hint_line;
pub use audits::{AuditOrder, ClaimOrder};
pub use claim::{Kind, kind_named};
pub use coins::{ChallengeNames, CoinOrder, PartOrder};
pub use command::{Command, command_of, house_order_of, may_ask_house};
pub use hints::{Hint, hint_of};
pub use kinds::WordKind;
pub use laws::every_command_is_found_by_its_name;
pub use names::ConfrontNames;
pub use orders::{HouseOrder, SealOrder};
pub use script::{script_order, words_of_line, written_name};
pub use usage::usage_line;
