//! Choices by whether two terms are equal.

ghost use Rattle.std.specs.Prelude.{◌≡◌, IfOk};
ghost use Rattle.dl_term.specs.declared.syntax.Term.{If};
ghost use Rattle.dl_wp.specs.Choices.{constant as constant_of, differ as values_differ, pick as picked};

use dl_term::{Term, copy_term, same_term};
use sqlite_items::Boxed;
use std::alloc::{AllocError, Global};

#[tactic(auto, unfolding(dl_term::specs::Syntax::opened))]
fn constant(term: &Term) -> Option<i64>
    ensures { result ≡ constant_of term.now }
{
    match term {
        Term::Num(value) | Term::Word { value, .. } => Some(*value),
        _ => None,
    }
}

// Whether the terms are constants of different values.
fn differ(left: &Term, right: &Term) -> bool
    ensures { result ≡ values_differ (constant_of left.now) (constant_of right.now) }
{
    match (constant(left), constant(right)) {
        (Some(left), Some(right)) => left != right,
        _ => false,
    }
}

fn boxed_copy(alloc: Global, term: &Term) -> Result<Boxed<Term>, AllocError>
    ensures { IfOk result (λ made. made ≡ term.now) }
{
    let copy = copy_term(alloc, term)?;
    Boxed::new(alloc, copy)
}

// The third where the first two are equal, and else the fourth.
#[tactic(auto, unfolding(dl_term::specs::Syntax::opened))]
fn choice(
    alloc: Global,
    left: &Term,
    right: &Term,
    equal: &Term,
    other: &Term,
) -> Result<Term, AllocError>
    ensures { IfOk result (λ made. made ≡ If left.now right.now equal.now other.now) }
{
    Ok(Term::If(
        boxed_copy(alloc, left)?,
        boxed_copy(alloc, right)?,
        boxed_copy(alloc, equal)?,
        boxed_copy(alloc, other)?,
    ))
}

/// The third where the first two are the same, the fourth where they are constants of different values, and else a
/// choice.
pub(crate) fn pick(
    alloc: Global,
    left: &Term,
    right: &Term,
    equal: &Term,
    other: &Term,
) -> Result<Term, AllocError>
    ensures { IfOk result (λ made. made ≡ picked left.now right.now equal.now other.now) }
{
    if same_term(left, right) {
        copy_term(alloc, equal)
    } else if differ(left, right) {
        copy_term(alloc, other)
    } else {
        choice(alloc, left, right, equal, other)
    }
}
