//! The board: what an auctioneer publishes of an auction, as a file that is read and written part
//! by part.
#![tactic(auto)]

mod board;
mod front;
mod laws;
mod published;
mod reading;
mod writing;

pub use board::{Head, LaneLines, SealLines};
pub use front::{Front, FrontErr, read_front, seats_of};
pub use laws::{
    all_but_boards_have_a_fault_line, boards_are_read_from_their_texts_alone,
    fronts_are_read_from_their_texts_alone, fronts_are_refused_for_what_fails_first,
    heads_are_read_from_their_texts_alone, lanes_are_read_from_their_texts_alone,
    reading_a_board_stops_at_the_fault_line, seals_are_read_from_their_texts_alone,
};
pub use published::{place_of_winner, position_of, price_stands};
pub use reading::{read_head, read_lane, read_seal_lines, read_seals};
pub use writing::{head_text, lane_text, seal_lines_text};
