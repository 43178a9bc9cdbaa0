//! Relations between the values of wires: what may be appended to a plan, with what it shows and
//! what its own wires are filled with.
#![tactic(auto)]

mod copies;
mod equal;
mod others;
mod range;
mod ranged;
mod ranges;
mod selected;
mod sets;

pub use copies::{add_copies, with_copies};
pub use equal::{Copied, Equal, SumIs};
pub use others::other;
pub use range::{AtLeast, InRange};
pub use ranged::{ranged_plan, ranged_values};
pub use ranges::Ranges;
pub use selected::SelectedIs;
pub use sets::{difference, one_term};
