//! A ceremony: commands of the house that stand in a file, each done when it is reached.
#![tactic(auto)]

mod closing;
mod holding;
mod laws;
mod reading;

pub use holding::ceremony;
pub use laws::{
    a_ceremony_is_a_run_of_the_house, a_ceremony_is_done_command_by_command,
    a_ceremony_that_was_held_is_one_command, a_ledger_stays_one_through_commands,
    a_script_says_the_commands_of_its_text, all_but_scripts_have_a_fault_line,
    an_act_is_a_step_of_the_house, answers_stay_through_commands,
    reading_a_script_stops_at_the_fault_line,
};
