//! What stands before a place of a file.

use crate::declared::{Procedure, Protocol, World};
use crate::scope::Scope;
use crate::text::Text;
use dl_term::Sort;
use indexmap::{IndexMap, IndexSet};
use sqlite_items::Items;

/// What the file has declared up to a place, and what the lists around the place have named.
#[derive(Drop)]
pub struct Walk<'a> {
    /// The names of all that is declared, fields and tags aside.
    pub declared: IndexSet<Text<'a>>,
    /// The nodes, in order.
    pub nodes: Items<Text<'a>>,
    /// Each sort that has a name.
    pub sorts: IndexMap<Text<'a>, Sort>,
    /// Each protocol with its name.
    pub protocols: Items<(Text<'a>, Protocol<'a>)>,
    /// Each hook with its client.
    pub hooks: Items<(Text<'a>, Text<'a>)>,
    /// Each world with its name.
    pub worlds: Items<(Text<'a>, World<'a>)>,
    /// Each invariant with its world.
    pub invariants: Items<(Text<'a>, Text<'a>)>,
    /// Each procedure with its name.
    pub procedures: Items<(Text<'a>, Procedure<'a>)>,
    /// The obligations that have a proof, each by its texts and its number.
    pub proved: IndexSet<(Vec<Text<'a>>, i64)>,
    /// The nodes and the enumerators with their values.
    pub words: IndexMap<Text<'a>, i64>,
    /// Each label with its protocol's number.
    pub labels: Items<(Text<'a>, usize)>,
    /// The names that quantifiers have bound.
    pub quantified: IndexSet<Text<'a>>,
    /// The names that other variables have had.
    pub others: IndexSet<Text<'a>>,
    /// The words of the points of the procedure.
    pub points: Items<Text<'a>>,
    /// What the lists around the place have named.
    pub scope: Scope<'a>,
}
