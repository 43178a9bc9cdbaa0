//! The auctioneer's house: its calls over a keeper of auctions, each of which reads one auction,
//! decides, and keeps at most one auction anew.
#![tactic(auto)]

mod errors;
mod found;
mod house;
mod laws;
mod opening;
mod standing;
mod working;

pub use errors::HouseErr;
pub use house::House;
pub use laws::{
    a_command_looks_at_its_own_auction_alone, a_ledger_stays_one,
    a_lifted_ledger_goes_on_as_before, an_auction_is_answered_once,
    each_auction_has_a_run_of_its_own, kept_seeds_are_not_dry,
};
pub use standing::{PhaseName, Standing};
