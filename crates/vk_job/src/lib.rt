//! What an honest auctioneer makes: a proof over sealed inputs, with its file and its replies; and
//! the job of an auction whose seals are taken, with its sale and its board.
#![tactic(auto)]

mod errors;
mod job;
mod kept;
mod laws;
mod pieces;
mod proof;
mod sale;
mod tapes;

pub use errors::JobErr;
pub use job::Job;
pub use laws::{
    dry_wires_are_first, first_auctions_keep_their_circuit, outcomes_are_by_maxima,
    pieces_are_texts, proved_auctions_hold, published_boards_are_of_their_form,
    sales_are_by_maxima,
};
pub use proof::{HonestProof, Prepared};
pub use tapes::draw_tapes;
