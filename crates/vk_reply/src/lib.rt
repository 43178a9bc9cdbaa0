//! The challenge and the reply to it: the bits that are asked for, and what is shown of each wire.
#![tactic(auto)]

mod challenge;
mod laws;
mod reading;
mod tokens;
mod writing;

pub use challenge::Challenge;
pub use laws::{
    all_but_challenges_have_a_fault_line, all_but_replies_have_a_fault_line,
    challenges_are_read_from_their_texts_alone, reading_a_challenge_stops_at_the_fault_line,
    reading_a_reply_stops_at_the_fault_line, replies_are_read_from_their_texts_alone,
    reply_heads_are_read_from_their_texts_alone, reply_lanes_are_read_from_their_texts_alone,
};
pub use reading::{read_challenge, read_reply_head, read_reply_lane};
pub use tokens::{bits_of, push_bits};
pub use writing::{challenge_text, reply_head_text, reply_lane_text};
