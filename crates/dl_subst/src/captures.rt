//! Whether a name of a new term is bound around its place.

ghost use Rattle.std.specs.Prelude.{◌≡◌};
ghost use Rattle.dl_subst.specs.Change.{mentions, captures_inside, term_captures, captures_under};
ghost use Rattle.dl_subst.specs.Code.{change_of, variables_of, messages_of};

use crate::change::{
    Around, Change, Place, binds_message, binds_variable, put_at, stops_at_message,
    stops_at_variable,
};
use dl_term::{Formula, Term};

#[tactic(auto, unfolding(dl_term::specs::Syntax::opened))]
fn names_bound(around: &Around, term: &Term) -> bool
    ensures { result ≡ mentions (variables_of around.now) (messages_of around.now) term.now }
{
    match term {
        Term::Num(_) | Term::Word { .. } | Term::Len(_) => false,
        Term::Var(sym) => binds_variable(around, *sym),
        Term::Msg { msg, .. } => binds_message(around, *msg),
        Term::Field { node, .. } => names_bound(around, node.get()),
        Term::Row { node, index, .. } => {
            names_bound(around, node.get()) || names_bound(around, index.get())
        }
        Term::Add(left, right) | Term::Sub(left, right) | Term::Mul(left, right) => {
            names_bound(around, left.get()) || names_bound(around, right.get())
        }
        Term::If(left, right, yes, no) => {
            names_bound(around, left.get())
                || names_bound(around, right.get())
                || names_bound(around, yes.get())
                || names_bound(around, no.get())
        }
    }
}

#[cycle(captures_term)]
fn captures_term(change: &Change, around: &Around, term: &Term) -> bool
    ensures { result ≡ term_captures (change_of change.now) (variables_of around.now) (messages_of around.now) term.now }
{
    match put_at(change, term) {
        Place::New(new) => names_bound(around, new),
        Place::Zero => false,
        Place::Kept => captures_in_parts(change, around, term),
    }
}

#[cycle(captures_term)]
#[tactic(auto, unfolding(dl_term::specs::Syntax::opened))]
fn captures_in_parts(change: &Change, around: &Around, term: &Term) -> bool
    ensures { result ≡ captures_inside (change_of change.now) (variables_of around.now) (messages_of around.now) term.now }
{
    match term {
        Term::Num(_) | Term::Word { .. } | Term::Var(_) | Term::Len(_) | Term::Msg { .. } => false,
        Term::Field { node, .. } => captures_term(change, around, node.get()),
        Term::Row { node, index, .. } => {
            captures_term(change, around, node.get()) || captures_term(change, around, index.get())
        }
        Term::Add(left, right) | Term::Sub(left, right) | Term::Mul(left, right) => {
            captures_term(change, around, left.get()) || captures_term(change, around, right.get())
        }
        Term::If(left, right, yes, no) => {
            captures_term(change, around, left.get())
                || captures_term(change, around, right.get())
                || captures_term(change, around, yes.get())
                || captures_term(change, around, no.get())
        }
    }
}

/// Whether the new term of a place has a name that is bound around that place.
#[tactic(auto, unfolding(dl_term::specs::Syntax::opened))]
pub(crate) fn captures_name(change: &Change, around: &Around, formula: &Formula) -> bool
    ensures { result ≡ captures_under (change_of change.now) (variables_of around.now) (messages_of around.now) formula.now }
{
    match formula {
        Formula::True | Formula::False => false,
        Formula::Eq(left, right) | Formula::Lt(left, right) | Formula::Le(left, right) => {
            captures_term(change, around, left) || captures_term(change, around, right)
        }
        Formula::Not(body) => captures_name(change, around, body.get()),
        Formula::And(left, right) | Formula::Or(left, right) | Formula::Implies(left, right) => {
            captures_name(change, around, left.get()) || captures_name(change, around, right.get())
        }
        Formula::All { sym, body } | Formula::Exists { sym, body } => {
            !stops_at_variable(change, *sym)
                && captures_name(change, &Around::Variable(&*around, *sym), body.get())
        }
        Formula::Each { msg, body, .. } | Formula::Any { msg, body, .. } => {
            !stops_at_message(change, *msg)
                && captures_name(change, &Around::Message(&*around, *msg), body.get())
        }
    }
}
