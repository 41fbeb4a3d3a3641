//! What a file is in the notation: its items, its proofs and the whole as trees without places.
//!
//! The folder `specs` says how each thing is written. A number that names something is its name, and a sort is its range.
#![tactic(auto)]

mod declarations;
mod found;
mod items;
mod obligations;
mod pieces;
mod programs;
mod scripts;

pub use items::{show_file, show_item, show_item_of, show_nodes, show_proof};
pub use pieces::{begin, list, number, range, symbol};
