//! One call of the program for a page in a browser: what the words of a line do, over files in
//! memory and a house that keeps no auction yet. Nothing is left of a call for the next.
#![tactic(auto)]

mod call;
mod folder;
mod room;
mod sure;
#[cfg(test)]
mod tests;

pub use call::page_run;
pub use folder::NamedBytes;
pub use room::WantedName;
