//! What an honest auctioneer hands out of an auction: it is accepted, whatever the challenge,
//! replies to two challenges open the bids that were sealed, and no file is too long to be read.
#![tactic(auto)]

mod laws;

pub use laws::{
    an_honest_answer_is_accepted, an_honest_proof_is_accepted, honest_files_are_short,
    honest_files_have_so_many_lines, honest_replies_give_the_bids,
};
