//! Shelves and sinks in memory against calls that fail and ample memory.
#![tactic(auto)]

#[cfg(test)]
mod tests;
