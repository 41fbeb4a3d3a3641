//! What a file holds.
use dl_model::Decls;
use dl_sequent::{Duty, Script};
use dl_tree::{Name, Place, Tree};
use sqlite_items::Items;

/// The script of an obligation, as it stands in a file.
#[derive(Drop)]
pub struct Proof {
    /// The obligation that it is for.
    pub duty: Duty,
    /// The names that the obligation takes, by their numbers.
    pub names: Items<u32>,
    pub script: Script,
    /// The place of the whole item.
    pub place: Place,
}

/// What an item of a file declares.
#[derive(Clone, Copy, Debug, PartialEq, Eq)]
pub enum ItemKind {
    Sort,
    Protocol,
    Label,
    Hook,
    World,
    Invariant,
    Procedure,
    Deploy,
    Proof,
}

/// An item of a file.
#[derive(Clone, Copy, Debug)]
pub struct Item {
    pub kind: ItemKind,
    /// Its position among the items of its kind, from 0.
    pub at: u32,
    pub place: Place,
}

/// A file that was read.
#[derive(Drop)]
pub struct File {
    /// The text of each name, by its number.
    pub names: Items<Name>,
    pub decls: Decls,
    /// The proofs, in their order.
    pub proofs: Items<Proof>,
    /// The items behind the list of nodes, in their order.
    pub items: Items<Item>,
    /// The tree that was read. Each place that the other fields don't hold is taken from it.
    pub tree: Tree,
}
