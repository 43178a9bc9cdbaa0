//! The commands that make a challenge without the auctioneer: auditors fix it together, or a
//! board's bytes give it.
#![tactic(auto)]

mod boards;
mod deeds;
mod drawing;
mod joining;
mod laws;

pub use deeds::make_challenge;
pub use laws::{a_board_gives_one_challenge, a_coin_is_joined_where_its_shares_open_its_parts};
