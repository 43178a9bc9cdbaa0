//! What is judged of files whose lanes are sealed, behind a front of any form: of one reply, and of
//! two side by side.
#![tactic(auto)]

mod answers;
mod checker;
mod halt;
mod judging;
mod lane;
mod laws;
mod named;
mod opened;
mod stage;
mod statement;
mod two;
mod two_halt;
mod two_lane;
mod two_laws;

pub use answers::{Fault, Part, VErr};
pub use checker::{Checker, judge_file};
pub use halt::{Halt, in_part, refusal_as_value};
pub use judging::judge_behind;
pub use laws::what_is_judged_behind_a_front_is_exact;
pub use named::{OneReply, TwoReplies};
pub use opened::{Opened, Refusal};
pub use stage::{
    Attempt, Base, FileAndReply, Finding, NextLane, Stage, TwoAttempts, TwoLane, TwoReaders,
};
pub use statement::Statement;
pub use two_laws::{
    a_finding_is_by_both_replies, a_finding_is_by_judging_both,
    named_files_come_to_what_their_bytes_do, only_replies_accepted_behind_a_front_are_found_to_be,
    replies_accepted_behind_a_front_give_their_values,
};
