//! What a house keeps of its auctions, and where it keeps them: the trait of a keeper, and a keeper
//! in memory that fails at the calls it is told to.
#![tactic(auto)]

mod auction;
mod copying;
mod joining;
mod keeper;
mod kept;
mod laws;
mod lifting;
mod mem_keeper;
mod turns;

pub use auction::{Auction, FirstAuction, Phase, SealRow};
pub use joining::Refusal;
pub use keeper::Keeper;
pub use laws::{
    a_ledger_with_an_auction_is_a_ledger, a_lifted_ledger_has_each_auction_lifted,
    one_get_and_then_at_most_one_put, what_may_join_makes_an_auction,
};
pub use mem_keeper::MemKeeper;
pub use turns::TurnCount;
