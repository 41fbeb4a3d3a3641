//! Whether a file that was read is formed: its declarations, its names and its proofs.
//!
//! A reader of files owes no contract where what it built is looked at afterwards. This is one half of that look: all that
//! the check of a file asks of it. That the file is what its text means is the other half.
#![tactic(auto)]

mod bound;
mod file;
mod keys;
mod names;
mod own;
mod taken;

pub use file::file_is_formed;
