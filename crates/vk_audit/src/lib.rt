//! What an auditor's commands say of the files that they read: `verify`, `extract`, `confront` and
//! `report`.
#![tactic(auto)]

mod auditing;
mod confrontations;
mod extractions;
mod laws;
mod reports;
mod verdicts;

pub use auditing::audit;
pub use confrontations::{confront_answered, confront_unread, say_confrontation};
pub use extractions::{extract_answered, say_extraction};
pub use laws::statuses_mean_what_the_files_are;
pub use reports::{say_report, say_report_fault};
pub use verdicts::{NamedParts, same_challenge, say_verdict, unread};
