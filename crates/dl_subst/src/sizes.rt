//! The size of a result, told before it is built.

ghost use Rattle.std.specs.Prelude.{◌≡◌, ◌≤◌, ◌<◌, ◌+◌, ◌-◌, ◌^◌, min, if◌then◌else◌, IfSome, IfNone};
ghost use Rattle.dl_term.specs.Measures.{parts, formula_parts, nesting, formula_nesting};
ghost use Rattle.dl_subst.specs.Change.{inside, changed_term, changed};
ghost use Rattle.dl_subst.specs.Code.{change_of};

use crate::change::{Change, Place, put_at, stops_at_message, stops_at_variable};
use dl_term::{Formula, Term, depth, size, term_depth, term_size};

/// What is left of the room, in parts, after the changed term, or None where it has not enough.
#[cycle(room_after_term)]
fn room_after_term(change: &Change, term: &Term, room: u64) -> Option<u64>
    requires { room ≤ 1000000 }
    ensures left { IfSome result (λ left. left + parts (changed_term (change_of change.now) term.now) ≡ room) }
    ensures lacks { IfNone result (room < parts (changed_term (change_of change.now) term.now)) }
{
    match put_at(change, term) {
        Place::New(new) => room.checked_sub(term_size(new)),
        Place::Zero => room.checked_sub(1),
        Place::Kept => room_after_parts(change, term, room),
    }
}

#[cycle(room_after_term)]
#[tactic(auto, unfolding(dl_term::specs::Syntax::opened))]
fn room_after_parts(change: &Change, term: &Term, room: u64) -> Option<u64>
    requires { room ≤ 1000000 }
    ensures left { IfSome result (λ left. left + parts (inside (change_of change.now) term.now) ≡ room) }
    ensures lacks { IfNone result (room < parts (inside (change_of change.now) term.now)) }
{
    match term {
        Term::Num(_) | Term::Word { .. } | Term::Var(_) | Term::Len(_) | Term::Msg { .. } => {
            room.checked_sub(1)
        }
        Term::Field { node, .. } => room_after_term(change, node.get(), room)?.checked_sub(1),
        Term::Row { node, index, .. } => {
            let room = room_after_term(change, node.get(), room)?;
            room_after_term(change, index.get(), room)?.checked_sub(1)
        }
        Term::Add(left, right) | Term::Sub(left, right) | Term::Mul(left, right) => {
            let room = room_after_term(change, left.get(), room)?;
            room_after_term(change, right.get(), room)?.checked_sub(1)
        }
        Term::If(left, right, yes, no) => {
            let room = room_after_term(change, left.get(), room)?;
            let room = room_after_term(change, right.get(), room)?;
            let room = room_after_term(change, yes.get(), room)?;
            room_after_term(change, no.get(), room)?.checked_sub(1)
        }
    }
}

/// What is left of the room, in parts, after the changed formula, or None where it has not enough.
#[cycle(room_after)]
#[tactic(auto, unfolding(dl_term::specs::Syntax::opened))]
pub(crate) fn room_after(change: &Change, formula: &Formula, room: u64) -> Option<u64>
    requires { room ≤ 1000000 }
    ensures left { IfSome result (λ left. left + formula_parts (changed (change_of change.now) formula.now) ≡ room) }
    ensures lacks { IfNone result (room < formula_parts (changed (change_of change.now) formula.now)) }
{
    match formula {
        Formula::True | Formula::False => room.checked_sub(1),
        Formula::Eq(left, right) | Formula::Lt(left, right) | Formula::Le(left, right) => {
            let room = room_after_term(change, left, room)?;
            room_after_term(change, right, room)?.checked_sub(1)
        }
        Formula::Not(body) => room_after(change, body.get(), room)?.checked_sub(1),
        Formula::And(left, right) | Formula::Or(left, right) | Formula::Implies(left, right) => {
            let room = room_after(change, left.get(), room)?;
            room_after(change, right.get(), room)?.checked_sub(1)
        }
        Formula::All { sym, body } | Formula::Exists { sym, body } => {
            room_after_body(change, stops_at_variable(change, *sym), body.get(), room)?.checked_sub(
                1,
            )
        }
        Formula::Each { msg, body, .. } | Formula::Any { msg, body, .. } => {
            room_after_body(change, stops_at_message(change, *msg), body.get(), room)?.checked_sub(
                1,
            )
        }
    }
}

// The body of a quantifier, below which nothing is changed where `stops` is true.
#[cycle(room_after)]
fn room_after_body(change: &Change, stops: bool, body: &Formula, room: u64) -> Option<u64>
    requires { room ≤ 1000000 }
    ensures left { IfSome result (λ left. left + formula_parts (if stops then body.now else changed (change_of change.now) body.now) ≡ room) }
    ensures lacks { IfNone result (room < formula_parts (if stops then body.now else changed (change_of change.now) body.now)) }
{
    if stops {
        room.checked_sub(size(body))
    } else {
        room_after(change, body, room)
    }
}

#[cycle(depth_of_term)]
fn depth_of_term(change: &Change, term: &Term) -> u64
    ensures { result ≡ min (nesting (changed_term (change_of change.now) term.now)) (2 ^ 64 - 1) }
{
    match put_at(change, term) {
        Place::New(new) => term_depth(new),
        Place::Zero => 1,
        Place::Kept => depth_of_parts(change, term),
    }
}

#[cycle(depth_of_term)]
#[tactic(auto, unfolding(dl_term::specs::Syntax::opened))]
fn depth_of_parts(change: &Change, term: &Term) -> u64
    ensures { result ≡ min (nesting (inside (change_of change.now) term.now)) (2 ^ 64 - 1) }
{
    match term {
        Term::Num(_) | Term::Word { .. } | Term::Var(_) | Term::Len(_) | Term::Msg { .. } => 1,
        Term::Field { node, .. } => depth_of_term(change, node.get()).saturating_add(1),
        Term::Row { node, index, .. } => {
            depth_of_term(change, node.get())
                .max(depth_of_term(change, index.get()))
                .saturating_add(1)
        }
        Term::Add(left, right) | Term::Sub(left, right) | Term::Mul(left, right) => {
            depth_of_term(change, left.get())
                .max(depth_of_term(change, right.get()))
                .saturating_add(1)
        }
        Term::If(left, right, yes, no) => {
            let tested = depth_of_term(change, left.get()).max(depth_of_term(change, right.get()));
            let chosen = depth_of_term(change, yes.get()).max(depth_of_term(change, no.get()));
            tested.max(chosen).saturating_add(1)
        }
    }
}

/// How deep the changed formula nests, or the greatest number where it nests deeper.
#[tactic(auto, unfolding(dl_term::specs::Syntax::opened))]
pub(crate) fn depth_after(change: &Change, formula: &Formula) -> u64
    ensures { result ≡ min (formula_nesting (changed (change_of change.now) formula.now)) (2 ^ 64 - 1) }
{
    match formula {
        Formula::True | Formula::False => 1,
        Formula::Eq(left, right) | Formula::Lt(left, right) | Formula::Le(left, right) => {
            depth_of_term(change, left)
                .max(depth_of_term(change, right))
                .saturating_add(1)
        }
        Formula::Not(body) => depth_after(change, body.get()).saturating_add(1),
        Formula::And(left, right) | Formula::Or(left, right) | Formula::Implies(left, right) => {
            depth_after(change, left.get())
                .max(depth_after(change, right.get()))
                .saturating_add(1)
        }
        Formula::All { sym, body } | Formula::Exists { sym, body } => {
            if stops_at_variable(change, *sym) {
                depth(body.get()).saturating_add(1)
            } else {
                depth_after(change, body.get()).saturating_add(1)
            }
        }
        Formula::Each { msg, body, .. } | Formula::Any { msg, body, .. } => {
            if stops_at_message(change, *msg) {
                depth(body.get()).saturating_add(1)
            } else {
                depth_after(change, body.get()).saturating_add(1)
            }
        }
    }
}
