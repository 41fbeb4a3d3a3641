//! What a formula or a term may name.

use dl_forms::Kind;
use dl_scope::Walk;

/// Which variables may be named.
#[derive(Clone, Copy, Debug, Drop, PartialEq, Eq)]
pub enum Variables {
    /// None.
    Nothing,
    /// `me` alone.
    Me,
    /// Those of the item.
    Item,
    /// Those of the item, and `result`.
    Result,
    /// Those of the item, and the locals.
    Locals,
    /// Those of the item, and the messages.
    Messages,
}

/// Which labels may be named.
#[derive(Clone, Copy, Debug, Drop, PartialEq, Eq)]
pub enum Labels {
    /// None.
    Nothing,
    /// `self`, for the item's protocol.
    Own,
    /// Those of the file.
    File,
    /// The core and the client of the hook.
    Hook,
}

/// What a formula or a term may name, and what it may hold.
#[derive(Clone, Copy)]
pub struct Sight<'x, 'a> {
    /// What stands before the place.
    pub walk: &'x Walk<'a>,
    /// The variables.
    pub variables: Variables,
    /// The labels.
    pub labels: Labels,
    /// Whether a variable hides a node or an enumerator of its name.
    pub hides: bool,
    /// What a formula may hold.
    pub kind: Kind,
}

/// The names that quantifiers around a place bind, from the innermost.
#[derive(Clone, Copy)]
pub enum Bound<'b> {
    /// No name.
    Nothing,
    /// A number's name, inside these.
    Variable(&'b Bound<'b>, &'b str),
    /// A message's name, inside these.
    Message(&'b Bound<'b>, &'b str),
}
