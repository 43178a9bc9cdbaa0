//! Plans, ranges and the plan of an auction against worked examples and outside values.
#![tactic(auto)]

#[cfg(test)]
mod tests;
