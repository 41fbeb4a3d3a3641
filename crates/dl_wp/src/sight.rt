//! Terms of a protocol, as they stand in a step.

ghost use Rattle.std.specs.Prelude.{◌≡◌, if◌then◌else◌, IfOk};
ghost use Rattle.std.specs.Option.{option_copied};
ghost use Rattle.dl_subst.specs.Change.{inside, changed_term, mentions};
ghost use Rattle.dl_wp.specs.Captures.{is_bound};
ghost use Rattle.dl_wp.specs.Code.{sight_of, around_of};

use crate::bound::{Bound, binds_message, binds_variable};
use crate::plan::{Sight, label_in, named};
use dl_term::{Term, copy_term};
use sqlite_items::Boxed;
use std::alloc::{AllocError, Global};

/// The term with the step's terms for the names of the protocol, and its label for `self`. The one refusal is want of
/// memory.
#[cycle(seen)]
#[tactic(auto, unfolding(dl_term::specs::Syntax::opened))]
pub fn seen(alloc: Global, sight: &Sight, term: &Term) -> Result<Term, AllocError>
    ensures { IfOk result (λ made. made ≡ changed_term (sight_of sight.now) term.now) }
{
    match term {
        Term::Num(value) => Ok(Term::Num(*value)),
        Term::Word { sym, value } => Ok(Term::Word {
            sym: *sym,
            value: *value,
        }),
        Term::Var(sym) => match named(sight, *sym) {
            Some(new) => copy_term(alloc, new),
            None => Ok(Term::Num(0)),
        },
        Term::Field { label, field, node } => Ok(Term::Field {
            label: label_in(sight, *label),
            field: *field,
            node: seen_part(alloc, sight, node)?,
        }),
        Term::Row {
            label,
            field,
            node,
            index,
        } => Ok(Term::Row {
            label: label_in(sight, *label),
            field: *field,
            node: seen_part(alloc, sight, node)?,
            index: seen_part(alloc, sight, index)?,
        }),
        Term::Len(label) => Ok(Term::Len(label_in(sight, *label))),
        Term::Msg { .. } => Ok(Term::Num(0)),
        Term::Add(left, right) => Ok(Term::Add(
            seen_part(alloc, sight, left)?,
            seen_part(alloc, sight, right)?,
        )),
        Term::Sub(left, right) => Ok(Term::Sub(
            seen_part(alloc, sight, left)?,
            seen_part(alloc, sight, right)?,
        )),
        Term::Mul(left, right) => Ok(Term::Mul(
            seen_part(alloc, sight, left)?,
            seen_part(alloc, sight, right)?,
        )),
        Term::If(left, right, yes, no) => Ok(Term::If(
            seen_part(alloc, sight, left)?,
            seen_part(alloc, sight, right)?,
            seen_part(alloc, sight, yes)?,
            seen_part(alloc, sight, no)?,
        )),
    }
}

#[cycle(seen)]
fn seen_part(alloc: Global, sight: &Sight, part: &Boxed<Term>) -> Result<Boxed<Term>, AllocError>
    ensures { IfOk result (λ made. made ≡ changed_term (sight_of sight.now) part.now) }
{
    let made = seen(alloc, sight, part.get())?;
    Boxed::new(alloc, made)
}

/// Whether a name of the term is bound.
#[tactic(auto, unfolding(dl_term::specs::Syntax::opened))]
pub(crate) fn names_bound(bound: &Bound, term: &Term) -> bool
    ensures { result ≡ is_bound (around_of bound.now) term.now }
{
    match term {
        Term::Num(_) | Term::Word { .. } | Term::Len(_) => false,
        Term::Var(sym) => binds_variable(bound, *sym),
        Term::Msg { msg, .. } => binds_message(bound, *msg),
        Term::Field { node, .. } => names_bound(bound, node.get()),
        Term::Row { node, index, .. } => {
            names_bound(bound, node.get()) || names_bound(bound, index.get())
        }
        Term::Add(left, right) | Term::Sub(left, right) | Term::Mul(left, right) => {
            names_bound(bound, left.get()) || names_bound(bound, right.get())
        }
        Term::If(left, right, yes, no) => {
            names_bound(bound, left.get())
                || names_bound(bound, right.get())
                || names_bound(bound, yes.get())
                || names_bound(bound, no.get())
        }
    }
}

/// Whether a name of the term, as it stands in the step, is bound.
#[tactic(auto, unfolding(dl_term::specs::Syntax::opened))]
pub(crate) fn seen_is_bound(sight: &Sight, bound: &Bound, term: &Term) -> bool
    ensures { result ≡ is_bound (around_of bound.now) (changed_term (sight_of sight.now) term.now) }
{
    match term {
        Term::Num(_) | Term::Word { .. } | Term::Len(_) | Term::Msg { .. } => false,
        Term::Var(sym) => match named(sight, *sym) {
            Some(new) => names_bound(bound, new),
            None => false,
        },
        Term::Field { node, .. } => seen_is_bound(sight, bound, node.get()),
        Term::Row { node, index, .. } => {
            seen_is_bound(sight, bound, node.get()) || seen_is_bound(sight, bound, index.get())
        }
        Term::Add(left, right) | Term::Sub(left, right) | Term::Mul(left, right) => {
            seen_is_bound(sight, bound, left.get()) || seen_is_bound(sight, bound, right.get())
        }
        Term::If(left, right, yes, no) => {
            seen_is_bound(sight, bound, left.get())
                || seen_is_bound(sight, bound, right.get())
                || seen_is_bound(sight, bound, yes.get())
                || seen_is_bound(sight, bound, no.get())
        }
    }
}
