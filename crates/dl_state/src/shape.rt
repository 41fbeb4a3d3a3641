//! Shapes of states.

use sqlite_items::Items;

/// The shape of a field.
#[derive(Debug, Drop)]
pub struct FieldShape {
    /// Whether a node has a number for each index, which is a node, and not one alone.
    pub row: bool,
    /// The first value of each node. A row has it at each index.
    pub first: Items<i64>,
}

/// The shape of a state: the number of nodes, and the fields of each label.
#[derive(Debug, Drop)]
pub struct Shape {
    pub nodes: u32,
    pub labels: Items<Items<FieldShape>>,
}
