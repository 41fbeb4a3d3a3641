//! The check of a tree: its forms, names and sorts, the file that it means, and the file's obligations.
//!
//! A file is built without a contract, and then looked at: that it is what its tree means, and that it is formed. So nothing
//! rests on the code that builds it.
#![tactic(auto)]

mod check;
mod judge;
mod laws;
mod read;

pub use check::{Checked, check_tree, checked_file};
pub use laws::refusals_are_by_rule;
pub use read::read_file;
