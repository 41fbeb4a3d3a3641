//! A file that was read: its declarations, its proofs, its items and its tree, and the answers of its check.
//!
//! These are plain types. The readers of items and proofs give them, and the check takes them.
#![tactic(auto)]

mod answer;
mod file;

pub use answer::{Accepted, Fault};
pub use file::{File, Item, ItemKind, Proof};
