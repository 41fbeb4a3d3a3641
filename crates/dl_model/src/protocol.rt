//! Protocols, their instances, and hooks between them.
use dl_term::{Formula, Sort, Term};
use sqlite_items::Items;

/// A field, with one number for each node, or a row, with one for each node and index.
#[derive(Drop)]
pub struct FieldDecl {
    pub sym: u32,
    pub row: bool,
    pub sort: Sort,
    /// What it has at first: a term over `me` and constants.
    pub first: Term,
}

/// A new value for a field, or for a row at an index.
#[derive(Drop)]
pub struct Update {
    /// The position of the field.
    pub field: u8,
    /// Some exactly where the field is a row.
    pub index: Option<Term>,
    pub value: Term,
}

/// When a step may be made, and what it does to the fields of the node that makes it.
#[derive(Drop)]
pub struct Transition {
    pub guard: Formula,
    pub updates: Items<Update>,
}

/// A kind of message.
#[derive(Drop)]
pub struct Tag {
    pub sym: u32,
    /// The name of each argument, with its sort.
    pub args: Items<(u32, Sort)>,
    pub send: Transition,
    /// None where such a message is never received.
    pub receive: Option<Transition>,
}

/// A protocol. Its formulas say `self` for the label of the instance.
#[derive(Drop)]
pub struct Protocol {
    pub sym: u32,
    pub fields: Items<FieldDecl>,
    pub tags: Items<Tag>,
    /// What holds in each state of an instance.
    pub coherence: Option<Formula>,
}

/// A condition on the sends of a tag at the client, by the state of the core.
#[derive(Drop)]
pub struct Hook {
    pub sym: u32,
    /// The label of the core.
    pub core: u8,
    /// The label of the client.
    pub client: u8,
    pub tag: u8,
    /// The hook's own names for the arguments.
    pub args: Items<u32>,
    pub formula: Formula,
}

/// The number of nodes, the protocols, and the protocol of each label by its position.
#[derive(Drop)]
pub struct Instances {
    pub nodes: u32,
    pub protocols: Items<Protocol>,
    pub of: Items<u8>,
}
