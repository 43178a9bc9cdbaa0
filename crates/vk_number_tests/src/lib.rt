//! Numbers, words, digests, commitments and wires against outside vectors and worked examples.
#![tactic(auto)]

#[cfg(test)]
mod tests;
