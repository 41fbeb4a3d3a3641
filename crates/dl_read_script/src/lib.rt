//! A file, built from its tree: its declarations and its proofs.
//!
//! As in the crate below, the tree has no fault of form, name or sort, and what is built is compared with it afterwards.
#![tactic(auto)]

mod certificates;
mod duties;
mod files;
mod proofs;
mod scripts;

pub use files::build_file;
