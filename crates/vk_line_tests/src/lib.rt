//! Tokens and the lines of files against worked texts, calls that fail and ample memory.
#![tactic(auto)]

#[cfg(test)]
mod tests;
