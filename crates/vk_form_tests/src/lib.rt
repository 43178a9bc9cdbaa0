//! A form of file of its own: what three sealed numbers come to. It has a head and a circuit, and
//! is judged and extracted by what serves every form.
#![tactic(auto)]

mod circuit;
mod form;
mod judging;
mod laws;
#[cfg(test)]
mod tests;

pub use circuit::SumPlan;
pub use form::SumHead;
pub use judging::{extract, judge, open};
pub use laws::{
    all_but_sum_files_have_a_fault_line, reading_a_sum_file_stops_at_the_fault_line,
    sum_files_are_read_from_their_texts_alone, sum_heads_are_read_from_their_texts_alone,
};
