//! Whether a file is what its tree means.
//!
//! The folder `specs` says when a tree means a file: the file is written as the tree is, once the tree is flat; its names
//! stand for what the tree declares; and its places are those of the tree.
#![tactic(auto)]

mod before;
mod commands;
mod flat;
mod laws;
mod points;
mod says;
mod stands;
mod told;
mod trees;
mod words;
mod worlds;

pub use laws::meaning_computes;
pub use told::tells;
