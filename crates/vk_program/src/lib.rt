//! The program: what the words of a command line do, over a house of auctions, files, an output and
//! standard error; and how it starts over those of the system.
#![tactic(auto)]

mod ending;
mod house;
mod late;
mod performing;
mod settling;
mod starting;
mod store;

pub use ending::end;
pub use house::{HousePlace, Unopened};
pub use performing::program;
pub use settling::Settle;
pub use starting::{run_over, start};
pub use store::StoreHouse;
