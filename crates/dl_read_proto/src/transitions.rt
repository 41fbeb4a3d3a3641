//! The sends and receives of tags.

use crate::around::{Around, field_position, number_of, parts_behind};
use crate::formulas::formula;
use crate::results::{add, both, finished, lost, some};
use crate::terms::term;
use dl_model::{Transition, Update};
use dl_term::Term;
use dl_tree::Tree;
use sqlite_items::Items;
use std::alloc::{AllocError, Global};

/// The send or the receive that a list is, within its protocol.
pub(crate) fn transition(
    alloc: Global,
    around: &Around,
    tree: &Tree,
) -> Result<Transition, AllocError> {
    match parts_behind(tree).split_first() {
        Some((guard, updates)) => {
            let guard = formula(alloc, around, guard);
            match both(guard, all_updates(alloc, around, updates)) {
                Ok((guard, updates)) => Ok(Transition { guard, updates }),
                Err(error) => Err(error),
            }
        }
        None => lost(),
    }
}

fn all_updates(
    alloc: Global,
    around: &Around,
    trees: &[Tree],
) -> Result<Items<Update>, AllocError> {
    let mut updates = Items::new(alloc);
    let done = add_updates(alloc, around, trees, &mut updates);
    finished(updates, done)
}

fn add_updates(
    alloc: Global,
    around: &Around,
    trees: &[Tree],
    updates: &mut Items<Update>,
) -> Result<(), AllocError> {
    for tree in trees {
        add(updates, update(alloc, around, parts_behind(tree)))?;
    }
    Ok(())
}

/// An update, by its field, its index where the field is a row, and its value.
fn update(alloc: Global, around: &Around, parts: &[Tree]) -> Result<Update, AllocError> {
    match parts {
        [name, value] => {
            let field = own_field(around, name);
            update_of(field, Ok(None), term(alloc, around, value))
        }
        [name, index, value] => {
            let field = own_field(around, name);
            let index = some(term(alloc, around, index));
            update_of(field, index, term(alloc, around, value))
        }
        _ => lost(),
    }
}

/// A field of the protocol that is read.
fn own_field(around: &Around, name: &Tree) -> Result<u8, AllocError> {
    let sym = number_of(around.names, name)?;
    field_position(around.fields, sym)
}

fn update_of(
    field: Result<u8, AllocError>,
    index: Result<Option<Term>, AllocError>,
    value: Result<Term, AllocError>,
) -> Result<Update, AllocError> {
    match both(field, both(index, value)) {
        Ok((field, (index, value))) => Ok(Update {
            field,
            index,
            value,
        }),
        Err(error) => Err(error),
    }
}
