//! The verdict on a board, a challenge and the reply to it, and on two replies side by side.
#![tactic(auto)]

mod answers;
mod boards;
mod laws;
mod two_boards;
mod two_laws;

pub use answers::{BoardRefusal, BoardVerdict, TwoVerdict};
pub use boards::{PlacedHead, open_board, verdict};
pub use laws::{a_verdict_accepts_what_is_accepted, verdicts_are_given_exactly_where_they_hold};
pub use two_boards::{BoardChecker, TwoChecker, begin_board};
pub use two_laws::{
    a_finding_is_by_both_verdicts, accepted_replies_give_their_values,
    only_accepted_replies_are_found_to_be,
};
