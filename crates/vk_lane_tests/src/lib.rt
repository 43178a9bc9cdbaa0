//! Rows, lanes, their provers and extractors against outside vectors, worked examples and ample
//! memory.
#![tactic(auto)]

#[cfg(test)]
mod tests;
