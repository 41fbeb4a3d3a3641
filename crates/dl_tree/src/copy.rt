//! Copies of trees.

ghost use Rattle.std.specs.Prelude.{◌≡◌, IfOk};

use crate::tree::Tree;
use sqlite_items::Items;
use std::alloc::{AllocError, Global};

/// A tree equal to this one, places too. Its only error is want of memory.
#[cycle(copy)]
pub fn copy_tree(alloc: Global, tree: &Tree) -> Result<Tree, AllocError>
    ensures { IfOk result (λ copy. copy ≡ tree.now) }
{
    match tree {
        Tree::Num { value, place } => Ok(Tree::Num {
            value: *value,
            place: *place,
        }),
        Tree::Sym { name, place } => Ok(Tree::Sym {
            name: name.copy(alloc)?,
            place: *place,
        }),
        Tree::List { items, place } => Ok(Tree::List {
            items: copy_items(alloc, items.as_slice())?,
            place: *place,
        }),
    }
}

#[cycle(copy)]
fn copy_items(alloc: Global, items: &[Tree]) -> Result<Items<Tree>, AllocError>
    ensures { IfOk result (λ copy. copy ≡ items.now) }
{
    let mut copy = Items::new(alloc);
    for item in items {
        copy.push(copy_tree(alloc, item)?)?;
    }
    Ok(copy)
}
