//! Formulas.

use crate::around::{Around, label, number_of, tag, word_of};
use crate::results::{both, boxed, lost};
use crate::terms::term;
use dl_term::{Formula, Lab, Term};
use dl_tree::Tree;
use sqlite_items::Boxed;
use std::alloc::{AllocError, Global};

/// What a formula with two parts says.
#[derive(Clone, Copy)]
enum Says {
    Eq,
    Lt,
    Le,
    And,
    Or,
    Implies,
    All,
    Exists,
}

fn said_by(word: &str) -> Result<Says, AllocError> {
    if word == "=" {
        Ok(Says::Eq)
    } else if word == "<" {
        Ok(Says::Lt)
    } else if word == "<=" {
        Ok(Says::Le)
    } else if word == "and" {
        Ok(Says::And)
    } else if word == "or" {
        Ok(Says::Or)
    } else if word == "implies" {
        Ok(Says::Implies)
    } else if word == "all" {
        Ok(Says::All)
    } else if word == "some" {
        Ok(Says::Exists)
    } else {
        lost()
    }
}

/// The formula that a tree without fault is.
#[cycle(formula)]
pub fn formula(alloc: Global, around: &Around, tree: &Tree) -> Result<Formula, AllocError> {
    match tree {
        Tree::Num { .. } => lost(),
        Tree::Sym { .. } => {
            if word_of(tree) == "true" {
                Ok(Formula::True)
            } else {
                Ok(Formula::False)
            }
        }
        Tree::List { items, .. } => match items.as_slice().split_first() {
            Some((head, parts)) => list_formula(alloc, around, word_of(head), parts),
            None => lost(),
        },
    }
}

#[cycle(formula)]
fn boxed_formula(
    alloc: Global,
    around: &Around,
    tree: &Tree,
) -> Result<Boxed<Formula>, AllocError> {
    boxed(alloc, formula(alloc, around, tree))
}

/// The formula that a list is, by its word and the parts behind it.
#[cycle(formula)]
fn list_formula(
    alloc: Global,
    around: &Around,
    word: &str,
    parts: &[Tree],
) -> Result<Formula, AllocError> {
    match parts {
        [body] => negation(boxed_formula(alloc, around, body)),
        [_, _] => pair_formula(alloc, around, said_by(word)?, parts),
        [name, of, tag_name, body] => {
            let body = boxed_formula(alloc, around, body);
            over_messages(
                word == "each",
                bound_message(around, name, of, tag_name),
                body,
            )
        }
        _ => lost(),
    }
}

/// The formula that a list is, by what it says and the two parts behind its word.
#[cycle(formula)]
fn pair_formula(
    alloc: Global,
    around: &Around,
    says: Says,
    parts: &[Tree],
) -> Result<Formula, AllocError> {
    let [first, second] = parts else {
        return lost();
    };
    match says {
        Says::Eq | Says::Lt | Says::Le => {
            let left = term(alloc, around, first);
            comparison(says, both(left, term(alloc, around, second)))
        }
        Says::And | Says::Or | Says::Implies => {
            let left = boxed_formula(alloc, around, first);
            join(says, both(left, boxed_formula(alloc, around, second)))
        }
        Says::All | Says::Exists => {
            let body = boxed_formula(alloc, around, second);
            over_nodes(says, both(number_of(around.names, first), body))
        }
    }
}

fn negation(body: Result<Boxed<Formula>, AllocError>) -> Result<Formula, AllocError> {
    match body {
        Ok(body) => Ok(Formula::Not(body)),
        Err(error) => Err(error),
    }
}

fn comparison(says: Says, parts: Result<(Term, Term), AllocError>) -> Result<Formula, AllocError> {
    match parts {
        Ok((left, right)) => match says {
            Says::Eq => Ok(Formula::Eq(left, right)),
            Says::Lt => Ok(Formula::Lt(left, right)),
            _ => Ok(Formula::Le(left, right)),
        },
        Err(error) => Err(error),
    }
}

fn join(
    says: Says,
    parts: Result<(Boxed<Formula>, Boxed<Formula>), AllocError>,
) -> Result<Formula, AllocError> {
    match parts {
        Ok((left, right)) => match says {
            Says::And => Ok(Formula::And(left, right)),
            Says::Or => Ok(Formula::Or(left, right)),
            _ => Ok(Formula::Implies(left, right)),
        },
        Err(error) => Err(error),
    }
}

fn over_nodes(
    says: Says,
    parts: Result<(u32, Boxed<Formula>), AllocError>,
) -> Result<Formula, AllocError> {
    match parts {
        Ok((sym, body)) => match says {
            Says::All => Ok(Formula::All { sym, body }),
            _ => Ok(Formula::Exists { sym, body }),
        },
        Err(error) => Err(error),
    }
}

/// The name of a message, its label and its tag.
fn bound_message(
    around: &Around,
    name: &Tree,
    of: &Tree,
    tag_name: &Tree,
) -> Result<(u32, Lab, u8), AllocError> {
    let msg = number_of(around.names, name)?;
    let label = label(around, of)?;
    let tag = tag(around, label, tag_name)?;
    Ok((msg, label, tag))
}

fn over_messages(
    each: bool,
    bound: Result<(u32, Lab, u8), AllocError>,
    body: Result<Boxed<Formula>, AllocError>,
) -> Result<Formula, AllocError> {
    match both(bound, body) {
        Ok(((msg, label, tag), body)) => {
            if each {
                Ok(Formula::Each {
                    msg,
                    label,
                    tag,
                    body,
                })
            } else {
                Ok(Formula::Any {
                    msg,
                    label,
                    tag,
                    body,
                })
            }
        }
        Err(error) => Err(error),
    }
}
