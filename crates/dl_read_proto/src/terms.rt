//! Terms.

use crate::around::{Around, field, integer, label, number_of, value_of, word_of};
use crate::results::{add, both, boxed, finished, lost};
use dl_term::{Lab, Part, Term};
use dl_tree::Tree;
use sqlite_items::{Boxed, Items};
use std::alloc::{AllocError, Global};

/// The term that a tree without fault is.
#[cycle(term)]
pub fn term(alloc: Global, around: &Around, tree: &Tree) -> Result<Term, AllocError> {
    match tree {
        Tree::Num { value, .. } => Ok(Term::Num(*value)),
        Tree::Sym { .. } => named_term(around, tree),
        Tree::List { items, .. } => match items.as_slice().split_first() {
            Some((head, parts)) => list_term(alloc, around, word_of(head), parts),
            None => lost(),
        },
    }
}

#[cycle(term)]
fn boxed_term(alloc: Global, around: &Around, tree: &Tree) -> Result<Boxed<Term>, AllocError> {
    boxed(alloc, term(alloc, around, tree))
}

/// The term that a list is, by its word and the parts behind it.
#[cycle(term)]
fn list_term(
    alloc: Global,
    around: &Around,
    word: &str,
    parts: &[Tree],
) -> Result<Term, AllocError> {
    match parts {
        [name] => short_term(around, word, name),
        [left, right] => {
            if word == "arg" {
                return argument(around, left, right);
            }
            let left = boxed_term(alloc, around, left);
            sum(word, both(left, boxed_term(alloc, around, right)))
        }
        [of, name, node] => read(around, of, name, boxed_term(alloc, around, node)),
        [first, second, third, fourth] => {
            let last = boxed_term(alloc, around, third);
            let last = both(last, boxed_term(alloc, around, fourth));
            if word == "get" {
                return read_row(around, first, second, last);
            }
            let left = boxed_term(alloc, around, first);
            choice(both(left, boxed_term(alloc, around, second)), last)
        }
        _ => lost(),
    }
}

/// A node or an enumerator, or else a variable.
fn named_term(around: &Around, tree: &Tree) -> Result<Term, AllocError> {
    let sym = number_of(around.names, tree)?;
    match value_of(around, sym) {
        Some(value) => Ok(Term::Word { sym, value }),
        None => Ok(Term::Var(sym)),
    }
}

/// The length of a soup, or a part of a message that has no number.
fn short_term(around: &Around, word: &str, name: &Tree) -> Result<Term, AllocError> {
    if word == "len" {
        return match label(around, name) {
            Ok(label) => Ok(Term::Len(label)),
            Err(error) => Err(error),
        };
    }
    let msg = number_of(around.names, name)?;
    let part = part_named(word)?;
    Ok(Term::Msg { msg, part })
}

fn part_named(word: &str) -> Result<Part, AllocError> {
    if word == "id" {
        Ok(Part::Id)
    } else if word == "from" {
        Ok(Part::From)
    } else if word == "to" {
        Ok(Part::To)
    } else if word == "live" {
        Ok(Part::Live)
    } else {
        lost()
    }
}

/// An argument of a message, by its number.
fn argument(around: &Around, name: &Tree, number: &Tree) -> Result<Term, AllocError> {
    let msg = number_of(around.names, name)?;
    let number = integer(number)?;
    match u8::try_from(number) {
        Ok(number) => Ok(Term::Msg {
            msg,
            part: Part::Arg(number),
        }),
        Err(_) => lost(),
    }
}

/// A sum, a difference or a product, by its two parts.
fn sum(
    word: &str,
    parts: Result<(Boxed<Term>, Boxed<Term>), AllocError>,
) -> Result<Term, AllocError> {
    match parts {
        Ok((left, right)) => {
            if word == "+" {
                Ok(Term::Add(left, right))
            } else if word == "-" {
                Ok(Term::Sub(left, right))
            } else {
                Ok(Term::Mul(left, right))
            }
        }
        Err(error) => Err(error),
    }
}

/// A choice, by what it compares and its two values.
fn choice(
    compared: Result<(Boxed<Term>, Boxed<Term>), AllocError>,
    values: Result<(Boxed<Term>, Boxed<Term>), AllocError>,
) -> Result<Term, AllocError> {
    match both(compared, values) {
        Ok(((left, right), (yes, no))) => Ok(Term::If(left, right, yes, no)),
        Err(error) => Err(error),
    }
}

/// The label and the field or row that two trees name.
fn place_read(around: &Around, of: &Tree, name: &Tree) -> Result<(Lab, u8), AllocError> {
    let label = label(around, of)?;
    let field = field(around, label, name)?;
    Ok((label, field))
}

/// A read of a field at a node.
fn read(
    around: &Around,
    of: &Tree,
    name: &Tree,
    node: Result<Boxed<Term>, AllocError>,
) -> Result<Term, AllocError> {
    match both(place_read(around, of, name), node) {
        Ok(((label, field), node)) => Ok(Term::Field { label, field, node }),
        Err(error) => Err(error),
    }
}

/// A read of a row at a node and an index.
fn read_row(
    around: &Around,
    of: &Tree,
    name: &Tree,
    at: Result<(Boxed<Term>, Boxed<Term>), AllocError>,
) -> Result<Term, AllocError> {
    match both(place_read(around, of, name), at) {
        Ok(((label, field), (node, index))) => Ok(Term::Row {
            label,
            field,
            node,
            index,
        }),
        Err(error) => Err(error),
    }
}

/// Adds the terms that the trees are.
fn add_terms(
    alloc: Global,
    around: &Around,
    trees: &[Tree],
    terms: &mut Items<Term>,
) -> Result<(), AllocError> {
    for tree in trees {
        add(terms, term(alloc, around, tree))?;
    }
    Ok(())
}

/// The terms that the trees are.
pub fn all_terms(
    alloc: Global,
    around: &Around,
    trees: &[Tree],
) -> Result<Items<Term>, AllocError> {
    let mut terms = Items::new(alloc);
    let done = add_terms(alloc, around, trees, &mut terms);
    finished(terms, done)
}
