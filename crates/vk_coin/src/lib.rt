//! Challenges that nobody chooses alone: one that auditors fix together, by shares that each
//! committed to before, and one that is derived from a board's bytes.
#![tactic(auto)]

mod bits;
mod coin;
mod commitment;
mod derived;
mod drawing;
mod joining;
mod laws;
mod reading;
mod share;
mod tokens;
mod writing;

pub use bits::{one_own_list_makes_the_joint_bits_wanted, own_bits};
pub use coin::Coin;
pub use commitment::share_commit;
pub use derived::board_challenge;
pub use drawing::draw_share;
pub use joining::{JointErr, joint};
pub use laws::{
    all_but_coins_have_a_fault_line, all_but_shares_have_a_fault_line,
    coins_are_read_from_their_texts_alone, messages_tell_shares_apart,
    reading_a_coin_stops_at_the_fault_line, reading_a_share_stops_at_the_fault_line,
    shares_are_read_from_their_texts_alone, unmet_parts_are_found,
};
pub use reading::{read_coin, read_share};
pub use share::Share;
pub use writing::share_text;
