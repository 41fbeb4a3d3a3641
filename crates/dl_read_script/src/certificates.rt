//! Certificates.

use dl_forms::Names;
use dl_linear::{Certificate, Multiple};
use dl_read_proto::{add, both, boxed, finished, integer, lost, number_of, word_of};
use dl_tree::Tree;
use sqlite_items::{Boxed, Items};
use std::alloc::{AllocError, Global};

/// The number of the word `goal`, which stands for the goal's negation.
const GOAL: u32 = 8;

/// The certificate that a tree is.
#[cycle(certificate)]
pub(crate) fn certificate(
    alloc: Global,
    names: &Names,
    tree: &Tree,
) -> Result<Certificate, AllocError> {
    match tree {
        Tree::Num { .. } => lost(),
        Tree::Sym { .. } => lost(),
        Tree::List { items, .. } => match items.as_slice().split_first() {
            Some((head, parts)) => list_certificate(alloc, names, word_of(head), parts),
            None => lost(),
        },
    }
}

/// The certificate that a list is, by its word and the parts behind it.
#[cycle(certificate)]
fn list_certificate(
    alloc: Global,
    names: &Names,
    word: &str,
    parts: &[Tree],
) -> Result<Certificate, AllocError> {
    if word == "add" {
        return sum(alloc, names, parts);
    }
    match parts {
        [] => Ok(Certificate::Use(GOAL)),
        [name] => used(names, name),
        [divisor, of] => {
            let of = boxed(alloc, certificate(alloc, names, of));
            divided(both(integer(divisor), of))
        }
        _ => lost(),
    }
}

#[cycle(certificate)]
fn sum(alloc: Global, names: &Names, parts: &[Tree]) -> Result<Certificate, AllocError> {
    let mut sum = Items::new(alloc);
    let done = add_multiples(alloc, names, parts, &mut sum);
    match finished(sum, done) {
        Ok(sum) => Ok(Certificate::Sum(sum)),
        Err(error) => Err(error),
    }
}

#[cycle(certificate)]
fn add_multiples(
    alloc: Global,
    names: &Names,
    parts: &[Tree],
    sum: &mut Items<Multiple>,
) -> Result<(), AllocError> {
    for part in parts {
        add(sum, multiple(alloc, names, part))?;
    }
    Ok(())
}

/// A certificate behind its multiplier.
#[cycle(certificate)]
fn multiple(alloc: Global, names: &Names, tree: &Tree) -> Result<Multiple, AllocError> {
    match tree {
        Tree::Num { .. } => lost(),
        Tree::Sym { .. } => lost(),
        Tree::List { items, .. } => match items.as_slice() {
            [factor, of] => {
                let factor = integer(factor);
                multiplied(both(factor, certificate(alloc, names, of)))
            }
            _ => lost(),
        },
    }
}

fn used(names: &Names, name: &Tree) -> Result<Certificate, AllocError> {
    match number_of(names, name) {
        Ok(hyp) => Ok(Certificate::Use(hyp)),
        Err(error) => Err(error),
    }
}

fn divided(
    parts: Result<(i64, Boxed<Certificate>), AllocError>,
) -> Result<Certificate, AllocError> {
    match parts {
        Ok((divisor, of)) => Ok(Certificate::Div(divisor, of)),
        Err(error) => Err(error),
    }
}

fn multiplied(parts: Result<(i64, Certificate), AllocError>) -> Result<Multiple, AllocError> {
    match parts {
        Ok((factor, certificate)) => Ok(Multiple {
            factor,
            certificate,
        }),
        Err(error) => Err(error),
    }
}
