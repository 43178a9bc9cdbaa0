//! Keepers and jobs against worked runs, calls that fail and ample memory.
#![tactic(auto)]

#[cfg(test)]
mod tests;
