//! Plans: lists of wires, and rows of linear forms over them that are to be 0. What may be appended
//! to a plan is a relation, and what is shown by a whole plan is a circuit.
#![tactic(auto)]

mod circuit;
mod flat;
mod form;
mod plan;
mod relation;
mod table;
mod wire;

pub use circuit::Circuit;
pub use form::{Form, Term, sum_of_terms};
pub use plan::Plan;
pub use relation::{Relation, add_and_fill};
pub use table::RowTable;
pub use wire::WireKind;
