//! Seals, boards and replies both ways, two replies side by side, bids, files that are too long or
//! fail, and the challenge of a file that comes in short pieces.
#![tactic(auto)]

#[cfg(test)]
mod tests;
