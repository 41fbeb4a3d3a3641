//! What names stand for where a part of a file is read.

use crate::meanings::{Meaning, Meanings};
use crate::results::{found, lost, position};
use dl_forms::Names;
use dl_model::{FieldDecl, Instances, Protocol, Tag};
use dl_term::{Lab, Sort};
use dl_tree::Tree;
use sqlite_items::Items;
use std::alloc::{AllocError, Global};

/// The number of the word `self`.
const SELF: u32 = 3;

/// What names stand for where a part of a file is read.
///
/// Variables need no list of their own: where a name stands for a number and isn't the name of a declared node or
/// enumerator, it is the name of a variable.
#[derive(Clone, Copy)]
pub struct Around<'a> {
    /// The numbers of the names.
    pub names: &'a Names,
    /// What the names before the place were declared as.
    pub meanings: &'a Meanings,
    /// The protocols before the place, and those of the labels.
    pub inst: &'a Instances,
    /// The fields of the protocol that `self` stands for, as far as they were read.
    pub fields: &'a [FieldDecl],
    /// The tags of this protocol, as far as they were read.
    pub tags: &'a [Tag],
    /// The variables that hide a node or an enumerator of the same name.
    pub hiding: &'a [u32],
}

/// The parts of a list behind its first one, and none of a number or a symbol.
pub fn parts_behind(tree: &Tree) -> &[Tree] {
    match tree {
        Tree::Num { .. } => &[],
        Tree::Sym { .. } => &[],
        Tree::List { items, .. } => match items.as_slice().split_first() {
            Some((_, parts)) => parts,
            None => &[],
        },
    }
}

/// All parts of a list, and none of a number or a symbol.
pub fn parts_of(tree: &Tree) -> &[Tree] {
    match tree {
        Tree::Num { .. } => &[],
        Tree::Sym { .. } => &[],
        Tree::List { items, .. } => items.as_slice(),
    }
}

/// The text of a symbol, and of a list's first part where that is a symbol, or else no text.
pub fn word_of(tree: &Tree) -> &str {
    match tree {
        Tree::Num { .. } => "",
        Tree::Sym { name, .. } => name.as_str(),
        Tree::List { items, .. } => match items.as_slice().first() {
            Some(Tree::Sym { name, .. }) => name.as_str(),
            _ => "",
        },
    }
}

/// The number that the tree is.
pub fn integer(tree: &Tree) -> Result<i64, AllocError> {
    match tree {
        Tree::Num { value, .. } => Ok(*value),
        Tree::Sym { .. } => lost(),
        Tree::List { .. } => lost(),
    }
}

/// The number of the name that the tree is.
pub fn number_of(names: &Names, tree: &Tree) -> Result<u32, AllocError> {
    match tree {
        Tree::Sym { name, .. } => found(names.known(name)),
        Tree::Num { .. } => lost(),
        Tree::List { .. } => lost(),
    }
}

/// Adds the numbers of the names that the trees are.
fn add_numbers(names: &Names, trees: &[Tree], numbers: &mut Items<u32>) -> Result<(), AllocError> {
    for tree in trees {
        let sym = number_of(names, tree)?;
        numbers.push(sym)?;
    }
    Ok(())
}

/// The numbers of the names that the trees are.
pub fn numbers(alloc: Global, names: &Names, trees: &[Tree]) -> Result<Items<u32>, AllocError> {
    let mut numbers = Items::new(alloc);
    let done = add_numbers(names, trees, &mut numbers);
    crate::results::finished(numbers, done)
}

/// What the name that the tree is was declared as.
pub fn meaning_of(around: &Around, tree: &Tree) -> Result<Meaning, AllocError> {
    let sym = number_of(around.names, tree)?;
    Ok(around.meanings.of(sym))
}

/// The value of the node or enumerator with this name, or None where the name is a variable's.
pub fn value_of(around: &Around, sym: u32) -> Option<i64> {
    if around.hiding.contains(&sym) {
        return None;
    }
    match around.meanings.of(sym) {
        Meaning::Word(value) => Some(value),
        _ => None,
    }
}

/// The sort that the tree names.
pub(crate) fn sort_of(around: &Around, tree: &Tree) -> Result<Sort, AllocError> {
    match meaning_of(around, tree)? {
        Meaning::Sort(sort) => Ok(sort),
        _ => lost(),
    }
}

/// The position of the label that the tree names.
pub fn label_position(around: &Around, tree: &Tree) -> Result<u8, AllocError> {
    match meaning_of(around, tree)? {
        Meaning::Label(at) => Ok(at),
        _ => lost(),
    }
}

/// The position of the world that the tree names.
pub fn world_position(around: &Around, tree: &Tree) -> Result<u8, AllocError> {
    match meaning_of(around, tree)? {
        Meaning::World(at) => Ok(at),
        _ => lost(),
    }
}

/// The label that the tree names, as terms and formulas write it.
pub fn label(around: &Around, tree: &Tree) -> Result<Lab, AllocError> {
    let sym = number_of(around.names, tree)?;
    if sym == SELF {
        return Ok(Lab::Own);
    }
    match around.meanings.of(sym) {
        Meaning::Label(at) => Ok(Lab::At(at)),
        _ => lost(),
    }
}

/// The protocol of the label at the position.
fn protocol_of(inst: &Instances, label: u8) -> Option<&Protocol> {
    match inst.of.get(usize::from(label)) {
        Some(protocol) => inst.protocols.get(usize::from(*protocol)),
        None => None,
    }
}

/// The position of the field or row with this name.
pub(crate) fn field_position(fields: &[FieldDecl], sym: u32) -> Result<u8, AllocError> {
    for (at, field) in fields.iter().enumerate() {
        if field.sym == sym {
            return position(at);
        }
    }
    lost()
}

/// The position of the tag with this name.
pub fn tag_position(tags: &[Tag], sym: u32) -> Result<u8, AllocError> {
    for (at, tag) in tags.iter().enumerate() {
        if tag.sym == sym {
            return position(at);
        }
    }
    lost()
}

/// The position of the label's field or row that the tree names.
pub fn field(around: &Around, label: Lab, tree: &Tree) -> Result<u8, AllocError> {
    let sym = number_of(around.names, tree)?;
    match label {
        Lab::Own => field_position(around.fields, sym),
        Lab::At(label) => match protocol_of(around.inst, label) {
            Some(protocol) => field_position(protocol.fields.as_slice(), sym),
            None => lost(),
        },
    }
}

/// The position of the label's tag that the tree names.
pub fn tag(around: &Around, label: Lab, tree: &Tree) -> Result<u8, AllocError> {
    let sym = number_of(around.names, tree)?;
    match label {
        Lab::Own => tag_position(around.tags, sym),
        Lab::At(label) => match protocol_of(around.inst, label) {
            Some(protocol) => tag_position(protocol.tags.as_slice(), sym),
            None => lost(),
        },
    }
}
