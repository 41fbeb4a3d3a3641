//! The changed term and the changed formula.

ghost use Rattle.std.specs.Prelude.{◌≡◌, if◌then◌else◌, IfOk};
ghost use Rattle.dl_subst.specs.Change.{inside, changed_term, changed};
ghost use Rattle.dl_subst.specs.Code.{change_of};

use crate::change::{Change, Place, label, put_at, stops_at_message, stops_at_variable};
use dl_term::{Formula, Term, copy_formula, copy_term};
use sqlite_items::Boxed;
use std::alloc::{AllocError, Global};

/// The term with the new terms in their places.
#[cycle(change_term)]
pub(crate) fn change_term(alloc: Global, change: &Change, term: &Term) -> Result<Term, AllocError>
    ensures { IfOk result (λ made. made ≡ changed_term (change_of change.now) term.now) }
{
    match put_at(change, term) {
        Place::New(new) => copy_term(alloc, new),
        Place::Zero => Ok(Term::Num(0)),
        Place::Kept => change_parts(alloc, change, term),
    }
}

#[cycle(change_term)]
#[tactic(auto, unfolding(dl_term::specs::Syntax::opened))]
fn change_parts(alloc: Global, change: &Change, term: &Term) -> Result<Term, AllocError>
    ensures { IfOk result (λ made. made ≡ inside (change_of change.now) term.now) }
{
    match term {
        Term::Num(value) => Ok(Term::Num(*value)),
        Term::Word { sym, value } => Ok(Term::Word {
            sym: *sym,
            value: *value,
        }),
        Term::Var(sym) => Ok(Term::Var(*sym)),
        Term::Field {
            label: at,
            field,
            node,
        } => {
            let node = change_part(alloc, change, node)?;
            Ok(Term::Field {
                label: label(change, *at),
                field: *field,
                node,
            })
        }
        Term::Row {
            label: at,
            field,
            node,
            index,
        } => {
            let node = change_part(alloc, change, node)?;
            let index = change_part(alloc, change, index)?;
            Ok(Term::Row {
                label: label(change, *at),
                field: *field,
                node,
                index,
            })
        }
        Term::Len(at) => Ok(Term::Len(label(change, *at))),
        Term::Msg { msg, part } => Ok(Term::Msg {
            msg: *msg,
            part: *part,
        }),
        Term::Add(left, right) => Ok(Term::Add(
            change_part(alloc, change, left)?,
            change_part(alloc, change, right)?,
        )),
        Term::Sub(left, right) => Ok(Term::Sub(
            change_part(alloc, change, left)?,
            change_part(alloc, change, right)?,
        )),
        Term::Mul(left, right) => Ok(Term::Mul(
            change_part(alloc, change, left)?,
            change_part(alloc, change, right)?,
        )),
        Term::If(left, right, yes, no) => Ok(Term::If(
            change_part(alloc, change, left)?,
            change_part(alloc, change, right)?,
            change_part(alloc, change, yes)?,
            change_part(alloc, change, no)?,
        )),
    }
}

#[cycle(change_term)]
fn change_part(
    alloc: Global,
    change: &Change,
    part: &Boxed<Term>,
) -> Result<Boxed<Term>, AllocError>
    ensures { IfOk result (λ made. made ≡ changed_term (change_of change.now) part.now) }
{
    let made = change_term(alloc, change, part.get())?;
    Boxed::new(alloc, made)
}

/// The formula with the new terms in their places.
#[cycle(change_formula)]
#[tactic(auto, unfolding(dl_term::specs::Syntax::opened))]
pub(crate) fn change_formula(
    alloc: Global,
    change: &Change,
    formula: &Formula,
) -> Result<Formula, AllocError>
    ensures { IfOk result (λ made. made ≡ changed (change_of change.now) formula.now) }
{
    match formula {
        Formula::True => Ok(Formula::True),
        Formula::False => Ok(Formula::False),
        Formula::Eq(left, right) => Ok(Formula::Eq(
            change_term(alloc, change, left)?,
            change_term(alloc, change, right)?,
        )),
        Formula::Lt(left, right) => Ok(Formula::Lt(
            change_term(alloc, change, left)?,
            change_term(alloc, change, right)?,
        )),
        Formula::Le(left, right) => Ok(Formula::Le(
            change_term(alloc, change, left)?,
            change_term(alloc, change, right)?,
        )),
        Formula::Not(body) => Ok(Formula::Not(change_body(alloc, change, body)?)),
        Formula::And(left, right) => Ok(Formula::And(
            change_body(alloc, change, left)?,
            change_body(alloc, change, right)?,
        )),
        Formula::Or(left, right) => Ok(Formula::Or(
            change_body(alloc, change, left)?,
            change_body(alloc, change, right)?,
        )),
        Formula::Implies(left, right) => Ok(Formula::Implies(
            change_body(alloc, change, left)?,
            change_body(alloc, change, right)?,
        )),
        Formula::All { sym, body } => {
            let body = change_below(alloc, change, stops_at_variable(change, *sym), body)?;
            Ok(Formula::All { sym: *sym, body })
        }
        Formula::Exists { sym, body } => {
            let body = change_below(alloc, change, stops_at_variable(change, *sym), body)?;
            Ok(Formula::Exists { sym: *sym, body })
        }
        Formula::Each {
            msg,
            label: at,
            tag,
            body,
        } => {
            let body = change_below(alloc, change, stops_at_message(change, *msg), body)?;
            Ok(Formula::Each {
                msg: *msg,
                label: label(change, *at),
                tag: *tag,
                body,
            })
        }
        Formula::Any {
            msg,
            label: at,
            tag,
            body,
        } => {
            let body = change_below(alloc, change, stops_at_message(change, *msg), body)?;
            Ok(Formula::Any {
                msg: *msg,
                label: label(change, *at),
                tag: *tag,
                body,
            })
        }
    }
}

#[cycle(change_formula)]
fn change_body(
    alloc: Global,
    change: &Change,
    body: &Boxed<Formula>,
) -> Result<Boxed<Formula>, AllocError>
    ensures { IfOk result (λ made. made ≡ changed (change_of change.now) body.now) }
{
    let made = change_formula(alloc, change, body.get())?;
    Boxed::new(alloc, made)
}

// The body of a quantifier, below which nothing is changed where `stops` is true.
#[cycle(change_formula)]
fn change_below(
    alloc: Global,
    change: &Change,
    stops: bool,
    body: &Boxed<Formula>,
) -> Result<Boxed<Formula>, AllocError>
    ensures { IfOk result (λ made. made ≡ (if stops then body.now else changed (change_of change.now) body.now)) }
{
    if stops {
        let same = copy_formula(alloc, body.get())?;
        Boxed::new(alloc, same)
    } else {
        change_body(alloc, change, body)
    }
}
