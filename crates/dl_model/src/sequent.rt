//! Sequents: hypotheses and a goal.
use dl_term::{Formula, Sort};
use sqlite_items::Items;

/// A formula with the number of its name.
#[derive(Drop)]
pub struct Hypothesis {
    pub name: u32,
    pub formula: Formula,
}

/// Hypotheses and a goal about variables and messages.
#[derive(Drop)]
pub struct Sequent {
    /// The name of each variable, with its sort.
    pub vars: Items<(u32, Sort)>,
    /// The name, the label and the tag of each message. The label 255 stands for `self`.
    pub messages: Items<(u32, u8, u8)>,
    pub facts: Items<Hypothesis>,
    pub goal: Formula,
    /// The protocol of the label `self`, by its position, or None where nothing says `self`.
    pub own: Option<u8>,
}
