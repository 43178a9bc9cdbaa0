//! Trials of a program in the folder that it runs in: steps that run it, that make files, folders
//! and links and take them away, and that tell what a person sees of a file.
#![tactic(auto)]

mod folder;
mod making;
mod seeing;

pub use folder::{FolderTrials, Program};
