//! What a command does to what is outside of it, and what it says.
#![tactic(auto)]

mod deed;
mod dry;
mod laws;
mod named;
mod numbers;
mod printing;
mod reading;
mod said;

pub use deed::Deed;
pub use dry::{bidder_dry_line, house_dry_line};
pub use laws::{a_stop_is_after_some_of_the_commands, commands_one_after_another_are_one};
pub use named::{missing, say_malformed, say_refused, too_long};
pub use numbers::numbers_line;
pub use printing::print;
pub use reading::{Unread, begin_named, named_value};
pub use said::Said;
