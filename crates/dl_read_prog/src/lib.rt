//! The programs of a file, built from its tree: its procedures and its deployment.
//!
//! As in the crate below, the tree has no fault of form, name or sort, and what is built is compared with it afterwards.
#![tactic(auto)]

mod commands;
mod items;
mod procedures;
mod programs;

pub use items::build_program;
pub use programs::procedure_position;
