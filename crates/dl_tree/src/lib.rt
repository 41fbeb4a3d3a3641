//! Texts and the trees that they spell: the reader, the layout, and copies.
#![tactic(auto)]

mod copy;
mod cursor;
mod laws;
mod reader;
mod tree;
mod word;
mod writer;

pub use copy::copy_tree;
pub use laws::one_tree;
pub use reader::{TreeFault, read_tree};
pub use tree::{Name, Place, Tree};
pub use writer::write_tree;
