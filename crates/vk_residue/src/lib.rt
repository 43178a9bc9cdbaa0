//! Numbers modulo 2^61 - 1, sums of their products, and the one value that stands for want of
//! memory.
#![tactic(auto)]

mod acc;
mod memory;
mod residue;

pub use acc::Acc;
pub use memory::NoMemory;
pub use residue::{MODULUS, Residue};
