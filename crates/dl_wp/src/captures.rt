//! Whether a name of a step's term is bound around a place where the term is put.

ghost use Rattle.std.specs.Prelude.{◌≡◌};
ghost use Rattle.std.specs.Option.{option_copied};
ghost use Rattle.dl_subst.specs.Change.{mentions};
ghost use Rattle.dl_subst.specs.Substitution.{new_part};
ghost use Rattle.dl_wp.specs.Before.{update_at as updated_at};
ghost use Rattle.dl_wp.specs.Captures.{field_captures, row_captures, part_captures, term_captures, captures as captures_name};
ghost use Rattle.dl_wp.specs.Code.{step_of, move_of, around_of};

use crate::bound::{Bound, binds_beside, binds_message, binds_variable, is_bound_over};
use crate::plan::{Motion, Plan, is_over, update_at};
use crate::sight::{names_bound, seen_is_bound};
use dl_subst::NewMessage;
use dl_term::{Formula, Lab, Part, Term};

fn captures_in_field(plan: &Plan, bound: &Bound, label: Lab, field: u8) -> bool
    ensures { result ≡ field_captures (step_of plan.now) (around_of bound.now) (updated_at (step_of plan.now) label field) }
{
    match update_at(plan, label, field) {
        None => false,
        Some(update) => {
            names_bound(bound, plan.sight.node) || seen_is_bound(&plan.sight, bound, &update.value)
        }
    }
}

fn captures_in_row(plan: &Plan, bound: &Bound, label: Lab, field: u8) -> bool
    ensures { result ≡ row_captures (step_of plan.now) (around_of bound.now) (updated_at (step_of plan.now) label field) }
{
    match update_at(plan, label, field) {
        None => false,
        Some(update) => {
            let index = match &update.index {
                Some(index) => seen_is_bound(&plan.sight, bound, index),
                None => false,
            };
            names_bound(bound, plan.sight.node)
                || index
                || seen_is_bound(&plan.sight, bound, &update.value)
        }
    }
}

// Whether a name of the term is bound, but for the innermost quantifier that binds the message `but`.
#[tactic(auto, unfolding(dl_term::specs::Syntax::opened))]
fn names_bound_beside(bound: &Bound, but: u32, term: &Term) -> bool
    ensures { result ≡ mentions (around_of bound.now).variable ((around_of bound.now).beside but) term.now }
{
    match term {
        Term::Num(_) | Term::Word { .. } | Term::Len(_) => false,
        Term::Var(sym) => binds_variable(bound, *sym),
        Term::Msg { msg, .. } => binds_beside(bound, but, *msg),
        Term::Field { node, .. } => names_bound_beside(bound, but, node.get()),
        Term::Row { node, index, .. } => {
            names_bound_beside(bound, but, node.get())
                || names_bound_beside(bound, but, index.get())
        }
        Term::Add(left, right) | Term::Sub(left, right) | Term::Mul(left, right) => {
            names_bound_beside(bound, but, left.get())
                || names_bound_beside(bound, but, right.get())
        }
        Term::If(left, right, yes, no) => {
            names_bound_beside(bound, but, left.get())
                || names_bound_beside(bound, but, right.get())
                || names_bound_beside(bound, but, yes.get())
                || names_bound_beside(bound, but, no.get())
        }
    }
}

// The part of the new message, which stands for that of the message `msg`.
fn captures_in_new(new: &NewMessage, bound: &Bound, msg: u32, part: Part) -> bool
    ensures { result ≡ mentions (around_of bound.now).variable ((around_of bound.now).beside msg) (new_part new.now part) }
{
    match part {
        Part::Id => names_bound_beside(bound, msg, &new.id),
        Part::From => names_bound_beside(bound, msg, &new.from),
        Part::To => names_bound_beside(bound, msg, &new.to),
        Part::Live => names_bound_beside(bound, msg, &new.live),
        Part::Arg(at) => match new.args.get(usize::from(at)) {
            Some(term) => names_bound_beside(bound, msg, term),
            None => false,
        },
    }
}

fn captures_in_part(plan: &Plan, bound: &Bound, msg: u32, part: Part) -> bool
    ensures { result ≡ part_captures (move_of plan.now.motion) (around_of bound.now) msg part }
{
    match &plan.motion {
        Motion::Sends(new) => is_bound_over(bound, msg) && captures_in_new(*new, bound, msg, part),
        Motion::Receives(received) => match part {
            Part::Live => is_bound_over(bound, msg) && binds_message(bound, *received),
            Part::Id | Part::From | Part::To | Part::Arg(_) => false,
        },
    }
}

#[tactic(auto, unfolding(dl_term::specs::Syntax::opened))]
fn captures_in_term(plan: &Plan, bound: &Bound, term: &Term) -> bool
    ensures { result ≡ term_captures (step_of plan.now) (around_of bound.now) term.now }
{
    match term {
        Term::Num(_) | Term::Word { .. } | Term::Var(_) | Term::Len(_) => false,
        Term::Msg { msg, part } => captures_in_part(plan, bound, *msg, *part),
        Term::Field { label, field, node } => {
            captures_in_field(plan, bound, *label, *field)
                || captures_in_term(plan, bound, node.get())
        }
        Term::Row {
            label,
            field,
            node,
            index,
        } => {
            captures_in_row(plan, bound, *label, *field)
                || captures_in_term(plan, bound, node.get())
                || captures_in_term(plan, bound, index.get())
        }
        Term::Add(left, right) | Term::Sub(left, right) | Term::Mul(left, right) => {
            captures_in_term(plan, bound, left.get()) || captures_in_term(plan, bound, right.get())
        }
        Term::If(left, right, yes, no) => {
            captures_in_term(plan, bound, left.get())
                || captures_in_term(plan, bound, right.get())
                || captures_in_term(plan, bound, yes.get())
                || captures_in_term(plan, bound, no.get())
        }
    }
}

/// Whether a name of a term of the step is bound around its place.
#[tactic(auto, unfolding(dl_term::specs::Syntax::opened))]
pub(crate) fn captures(plan: &Plan, bound: &Bound, formula: &Formula) -> bool
    ensures { result ≡ captures_name (step_of plan.now) (around_of bound.now) formula.now }
{
    match formula {
        Formula::True | Formula::False => false,
        Formula::Eq(left, right) | Formula::Lt(left, right) | Formula::Le(left, right) => {
            captures_in_term(plan, bound, left) || captures_in_term(plan, bound, right)
        }
        Formula::Not(body) => captures(plan, bound, body.get()),
        Formula::And(left, right) | Formula::Or(left, right) | Formula::Implies(left, right) => {
            captures(plan, bound, left.get()) || captures(plan, bound, right.get())
        }
        Formula::All { sym, body } | Formula::Exists { sym, body } => {
            captures(plan, &Bound::Variable(&*bound, *sym), body.get())
        }
        Formula::Each {
            msg,
            label,
            tag,
            body,
        }
        | Formula::Any {
            msg,
            label,
            tag,
            body,
        } => {
            let over = is_over(plan, *label, *tag);
            captures(plan, &Bound::Message(&*bound, *msg, over), body.get())
        }
    }
}
