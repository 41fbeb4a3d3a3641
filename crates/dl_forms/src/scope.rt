//! What may be named.

use dl_term::Sort;
use sqlite_items::Items;

/// A declared sort, with the names of its enumerators.
#[derive(Drop)]
pub struct SortDecl {
    pub sym: u32,
    pub sort: Sort,
    pub values: Items<u32>,
}

/// What was noted of a name: that a quantifier binds it, and that another variable has it.
#[derive(Clone, Copy, Drop)]
pub struct Marks {
    pub quantified: bool,
    pub other: bool,
}

/// What a formula or a term may hold.
#[derive(Clone, Copy, Debug, Drop)]
pub enum Kind {
    /// Everything.
    Whole,
    /// Reads of fields at the node `me` alone, no length of a soup, and no quantifier over messages.
    Local,
    /// No read, no length, no part of a message and no quantifier.
    Plain,
}

/// What may be named at a place, by the numbers of the names, and what may not be bound there.
#[derive(Drop)]
pub struct Scope {
    /// The variables with their sorts.
    pub vars: Items<(u32, Sort)>,
    /// The messages, each with its label and tag. The label 255 stands for `self`.
    pub messages: Items<(u32, u8, u8)>,
    /// The nodes and enumerators with their values.
    pub words: Items<(u32, i64)>,
    /// The labels, by their positions in the file.
    pub labels: Items<u32>,
    /// The protocol of the label `self`, by its position, or None where nothing may say `self`.
    pub own: Option<u8>,
    /// What the formula or term may hold.
    pub kind: Kind,
    /// The names of further declared things, which no quantifier may bind: hooks, worlds, invariants and
    /// procedures.
    pub declared: Items<u32>,
}

/// The names that quantifiers around a place bind, from the innermost.
#[derive(Clone, Copy)]
pub enum Bound<'a> {
    Nothing,
    Variable(&'a Bound<'a>, u32),
    Message(&'a Bound<'a>, u32),
}
