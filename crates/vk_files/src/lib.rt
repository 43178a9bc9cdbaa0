//! The real edge of the program: the files of the system as a shelf, and standard output as a sink.
//! Each error of the system is counted as a fault.
#![tactic(auto)]

mod again;
mod ahead;
mod faults;
mod file_id;
mod file_shelf;
mod kinds;
mod links;
mod moves;
mod named_ids;
mod opening;
mod out_sink;
mod outcome;
mod outlet;
mod pieces;
mod store;
mod store_names;
mod told_names;

pub use faults::FaultCount;
pub use file_shelf::{FileShelf, NamedFault};
pub use out_sink::OutSink;
