//! The formula before a step.

ghost use Rattle.std.specs.Prelude.{true, ◌≡◌, ◌≤◌, ◌<◌, ◌+◌, ◌-◌, ◌^◌, IfOk};
ghost use Rattle.std.specs.Option.{option_copied};
ghost use Rattle.dl_term.specs.declared.syntax.Term.{Field, Row, Msg};
ghost use Rattle.dl_term.specs.declared.syntax.Formula.{Each, Any};
ghost use Rattle.dl_term.specs.Measures.{parts, formula_parts};
ghost use Rattle.dl_subst.specs.Substitution.{message_substituted};
ghost use Rattle.dl_wp.specs.Steps.{Sends, Receives};
ghost use Rattle.dl_term.specs.Same.{same_label as labels_match};
ghost use Rattle.dl_wp.specs.Before.{field_before as field_of, row_before as row_of, read_before as read_of, row_read_before as row_read_of, len_before as len_of, live_before as live_of, part_before as part_of, term_before as term_of, each_before as each_of, any_before as any_of, before as formula_of};
ghost use Rattle.dl_wp.specs.Code.{step_of, move_of, around_of, index_in};

use crate::bound::{Bound, is_bound_over};
use crate::faults::Stop;
use crate::picks::pick;
use crate::plan::{Motion, Plan, is_over, update_at};
use crate::room::{less, less_term, room_beside};
use crate::sight::seen;
use dl_model::Update;
use dl_subst::{NewMessage, put_message, room_after_message};
use dl_term::{Formula, Lab, Part, Term, copy_formula, copy_term, same_label};
use sqlite_items::Boxed;
use std::alloc::{AllocError, Global};

// ---- terms

fn field(alloc: Global, label: Lab, field: u8, node: &Term) -> Result<Term, AllocError>
    ensures { IfOk result (λ made. made ≡ Field label field node.now) }
{
    let node = copy_term(alloc, node)?;
    Ok(Term::Field {
        label,
        field,
        node: Boxed::new(alloc, node)?,
    })
}

fn field_before(
    alloc: Global,
    plan: &Plan,
    update: Option<&Update>,
    node: &Term,
    old: &Term,
) -> Result<Term, AllocError>
    ensures { IfOk result (λ made. made ≡ field_of (step_of plan.now) (option_copied update.entry) node.now old.now) }
{
    match update {
        None => copy_term(alloc, old),
        Some(update) => {
            let value = seen(alloc, &plan.sight, &update.value)?;
            pick(alloc, node, plan.sight.node, &value, old)
        }
    }
}

fn row(alloc: Global, label: Lab, field: u8, node: &Term, index: &Term) -> Result<Term, AllocError>
    ensures { IfOk result (λ made. made ≡ Row label field node.now index.now) }
{
    let node = copy_term(alloc, node)?;
    let index = copy_term(alloc, index)?;
    Ok(Term::Row {
        label,
        field,
        node: Boxed::new(alloc, node)?,
        index: Boxed::new(alloc, index)?,
    })
}

// The index that an update of a row has, or 0.
fn index_of(alloc: Global, plan: &Plan, update: Option<&Update>) -> Result<Term, AllocError>
    ensures { IfOk result (λ made. made ≡ index_in (step_of plan.now) (option_copied update.entry)) }
{
    match update {
        Some(update) => match &update.index {
            Some(index) => seen(alloc, &plan.sight, index),
            None => Ok(Term::Num(0)),
        },
        None => Ok(Term::Num(0)),
    }
}

fn row_before(
    alloc: Global,
    plan: &Plan,
    update: Option<&Update>,
    place: &Term,
    node: &Term,
    index: &Term,
    old: &Term,
) -> Result<Term, AllocError>
    requires { place.now ≡ index_in (step_of plan.now) (option_copied update) }
    ensures { IfOk result (λ made. made ≡ row_of (step_of plan.now) (option_copied update.entry) node.now index.now old.now) }
{
    match update {
        None => copy_term(alloc, old),
        Some(update) => {
            let value = seen(alloc, &plan.sight, &update.value)?;
            let at_index = pick(alloc, index, place, &value, old)?;
            pick(alloc, node, plan.sight.node, &at_index, old)
        }
    }
}

fn len_before(alloc: Global, plan: &Plan, label: Lab) -> Result<Term, AllocError>
    ensures { IfOk result (λ made. made ≡ len_of (move_of plan.now.motion) (labels_match label plan.now.sight.label) label) }
{
    match &plan.motion {
        Motion::Sends(_) => {
            if same_label(label, plan.sight.label) {
                Ok(Term::Add(
                    Boxed::new(alloc, Term::Len(label))?,
                    Boxed::new(alloc, Term::Num(1))?,
                ))
            } else {
                Ok(Term::Len(label))
            }
        }
        Motion::Receives(_) => Ok(Term::Len(label)),
    }
}

fn boxed_part(alloc: Global, msg: u32, part: Part) -> Result<Boxed<Term>, AllocError>
    ensures { IfOk result (λ made. made ≡ Msg msg part) }
{
    Boxed::new(alloc, Term::Msg { msg, part })
}

// The mark of a message, which is 0 where it is the one that is received.
fn live_before(alloc: Global, received: u32, msg: u32) -> Result<Term, AllocError>
    ensures { IfOk result (λ made. made ≡ live_of (Receives received) true msg) }
{
    Ok(Term::If(
        boxed_part(alloc, msg, Part::Id)?,
        boxed_part(alloc, received, Part::Id)?,
        Boxed::new(alloc, Term::Num(0))?,
        boxed_part(alloc, msg, Part::Live)?,
    ))
}

fn part_before(
    alloc: Global,
    plan: &Plan,
    over: bool,
    msg: u32,
    part: Part,
) -> Result<Term, AllocError>
    ensures { IfOk result (λ made. made ≡ part_of (move_of plan.now.motion) over msg part) }
{
    match (&plan.motion, part) {
        (Motion::Receives(received), Part::Live) => {
            if over {
                live_before(alloc, *received, msg)
            } else {
                Ok(Term::Msg { msg, part })
            }
        }
        _ => Ok(Term::Msg { msg, part }),
    }
}

// The term before the step, and what is left of the room.
#[cycle(term_before)]
#[tactic(auto, unfolding(dl_term::specs::Syntax::opened))]
fn term_before(
    alloc: Global,
    plan: &Plan,
    bound: &Bound,
    term: &Term,
    room: u64,
) -> Result<(Term, u64), Stop>
    requires { room < 2 ^ 64 - 1 }
    ensures made { IfOk result (λ r. r.0 ≡ term_of (step_of plan.now) (around_of bound.now).over term.now) }
    ensures left { IfOk result (λ r. r.1 + parts (term_of (step_of plan.now) (around_of bound.now).over term.now) ≡ room) }
    ensures lacks { (result ≡ Err Stop.Room) → room < parts (term_of (step_of plan.now) (around_of bound.now).over term.now) }
{
    match term {
        Term::Num(value) => Ok((Term::Num(*value), less(room, 1)?)),
        Term::Word { sym, value } => {
            let room = less(room, 1)?;
            Ok((
                Term::Word {
                    sym: *sym,
                    value: *value,
                },
                room,
            ))
        }
        Term::Var(sym) => Ok((Term::Var(*sym), less(room, 1)?)),
        Term::Field { label, field, node } => {
            read_before(alloc, plan, bound, *label, *field, node.get(), room)
        }
        Term::Row {
            label,
            field,
            node,
            index,
        } => {
            let (node, index) = (node.get(), index.get());
            row_read_before(alloc, plan, bound, *label, *field, node, index, room)
        }
        Term::Len(label) => charged(len_before(alloc, plan, *label)?, room),
        Term::Msg { msg, part } => {
            let over = is_bound_over(bound, *msg);
            charged(part_before(alloc, plan, over, *msg, *part)?, room)
        }
        Term::Add(left, right) => {
            let (left, right, room) = two_before(alloc, plan, bound, left, right, room)?;
            Ok((Term::Add(left, right), room))
        }
        Term::Sub(left, right) => {
            let (left, right, room) = two_before(alloc, plan, bound, left, right, room)?;
            Ok((Term::Sub(left, right), room))
        }
        Term::Mul(left, right) => {
            let (left, right, room) = two_before(alloc, plan, bound, left, right, room)?;
            Ok((Term::Mul(left, right), room))
        }
        Term::If(left, right, yes, no) => {
            let (left, right, room) = two_before(alloc, plan, bound, left, right, room)?;
            let (yes, room) = boxed_before(alloc, plan, bound, yes, room)?;
            let (no, room) = boxed_before(alloc, plan, bound, no, room)?;
            Ok((Term::If(left, right, yes, no), room))
        }
    }
}

// A term, and what is left of the room after it.
fn charged(made: Term, room: u64) -> Result<(Term, u64), Stop>
    requires { room < 2 ^ 64 - 1 }
    ensures made { IfOk result (λ r. r.0 ≡ made) }
    ensures left { IfOk result (λ r. r.1 + parts made ≡ room) }
    ensures lacks { (result ≡ Err Stop.Room) → room < parts made }
{
    let room = less_term(room, &made)?;
    Ok((made, room))
}

#[cycle(term_before)]
fn boxed_before(
    alloc: Global,
    plan: &Plan,
    bound: &Bound,
    term: &Boxed<Term>,
    room: u64,
) -> Result<(Boxed<Term>, u64), Stop>
    requires { room < 2 ^ 64 - 1 }
    ensures made { IfOk result (λ r. r.0 ≡ term_of (step_of plan.now) (around_of bound.now).over term.now) }
    ensures left { IfOk result (λ r. r.1 + parts (term_of (step_of plan.now) (around_of bound.now).over term.now) ≡ room) }
    ensures lacks { (result ≡ Err Stop.Room) → room < parts (term_of (step_of plan.now) (around_of bound.now).over term.now) }
{
    let (made, room) = term_before(alloc, plan, bound, term.get(), room)?;
    Ok((Boxed::new(alloc, made)?, room))
}

// Two parts of a term, and what is left of the room after them and the term.
#[cycle(term_before)]
fn two_before(
    alloc: Global,
    plan: &Plan,
    bound: &Bound,
    left: &Boxed<Term>,
    right: &Boxed<Term>,
    room: u64,
) -> Result<(Boxed<Term>, Boxed<Term>, u64), Stop>
    requires { room < 2 ^ 64 - 1 }
    ensures left { IfOk result (λ r. r.0 ≡ term_of (step_of plan.now) (around_of bound.now).over left.now) }
    ensures right { IfOk result (λ r. r.1 ≡ term_of (step_of plan.now) (around_of bound.now).over right.now) }
    ensures rest { IfOk result (λ r. r.2 + (1 + (parts (term_of (step_of plan.now) (around_of bound.now).over left.now) + parts (term_of (step_of plan.now) (around_of bound.now).over right.now))) ≡ room) }
    ensures lacks { (result ≡ Err Stop.Room) → room < 1 + (parts (term_of (step_of plan.now) (around_of bound.now).over left.now) + parts (term_of (step_of plan.now) (around_of bound.now).over right.now)) }
{
    let room = less(room, 1)?;
    let (left, room) = boxed_before(alloc, plan, bound, left, room)?;
    let (right, room) = boxed_before(alloc, plan, bound, right, room)?;
    Ok((left, right, room))
}

// A read of a field, whose new term has the node's term unless that is the step's node.
#[cycle(term_before)]
#[tactic(auto, using(crate::proofs::Sizes::field_grows))]
fn read_before(
    alloc: Global,
    plan: &Plan,
    bound: &Bound,
    label: Lab,
    at: u8,
    node: &Term,
    room: u64,
) -> Result<(Term, u64), Stop>
    requires { room < 2 ^ 64 - 1 }
    ensures made { IfOk result (λ r. r.0 ≡ read_of (step_of plan.now) label at (term_of (step_of plan.now) (around_of bound.now).over node.now)) }
    ensures left { IfOk result (λ r. r.1 + parts (read_of (step_of plan.now) label at (term_of (step_of plan.now) (around_of bound.now).over node.now)) ≡ room) }
    ensures lacks { (result ≡ Err Stop.Room) → room < parts (read_of (step_of plan.now) label at (term_of (step_of plan.now) (around_of bound.now).over node.now)) }
{
    let enough = room_beside(room, plan.sight.node)?;
    let (node, _) = term_before(alloc, plan, bound, node, enough)?;
    let update = update_at(plan, label, at);
    let old = field(alloc, label, at, &node)?;
    charged(field_before(alloc, plan, update, &node, &old)?, room)
}

// A read of a row, whose new term has the terms of node and index unless these are those of the step.
#[cycle(term_before)]
#[tactic(auto, using(crate::proofs::Sizes::row_grows))]
fn row_read_before(
    alloc: Global,
    plan: &Plan,
    bound: &Bound,
    label: Lab,
    at: u8,
    node: &Term,
    index: &Term,
    room: u64,
) -> Result<(Term, u64), Stop>
    requires { room < 2 ^ 64 - 1 }
    ensures made { IfOk result (λ r. r.0 ≡ row_read_of (step_of plan.now) label at (term_of (step_of plan.now) (around_of bound.now).over node.now) (term_of (step_of plan.now) (around_of bound.now).over index.now)) }
    ensures left { IfOk result (λ r. r.1 + parts (row_read_of (step_of plan.now) label at (term_of (step_of plan.now) (around_of bound.now).over node.now) (term_of (step_of plan.now) (around_of bound.now).over index.now)) ≡ room) }
    ensures lacks { (result ≡ Err Stop.Room) → room < parts (row_read_of (step_of plan.now) label at (term_of (step_of plan.now) (around_of bound.now).over node.now) (term_of (step_of plan.now) (around_of bound.now).over index.now)) }
{
    let enough = room_beside(room, plan.sight.node)?;
    let (node, _) = term_before(alloc, plan, bound, node, enough)?;
    row_at_node_before(alloc, plan, bound, label, at, &node, index, room)
}

// The same by the term that the node has before the step.
#[cycle(term_before)]
#[tactic(auto, using(crate::proofs::Sizes::row_index_grows))]
fn row_at_node_before(
    alloc: Global,
    plan: &Plan,
    bound: &Bound,
    label: Lab,
    at: u8,
    node: &Term,
    index: &Term,
    room: u64,
) -> Result<(Term, u64), Stop>
    requires { room < 2 ^ 64 - 1 }
    ensures made { IfOk result (λ r. r.0 ≡ row_read_of (step_of plan.now) label at node.now (term_of (step_of plan.now) (around_of bound.now).over index.now)) }
    ensures left { IfOk result (λ r. r.1 + parts (row_read_of (step_of plan.now) label at node.now (term_of (step_of plan.now) (around_of bound.now).over index.now)) ≡ room) }
    ensures lacks { (result ≡ Err Stop.Room) → room < parts (row_read_of (step_of plan.now) label at node.now (term_of (step_of plan.now) (around_of bound.now).over index.now)) }
{
    let update = update_at(plan, label, at);
    let place = index_of(alloc, plan, update)?;
    let enough = room_beside(room, &place)?;
    let (index, _) = term_before(alloc, plan, bound, index, enough)?;
    let old = row(alloc, label, at, node, &index)?;
    charged(
        row_before(alloc, plan, update, &place, node, &index, &old)?,
        room,
    )
}

// ---- formulas

// The formula before the step, and what is left of the room.
#[cycle(before)]
#[tactic(auto, unfolding(dl_term::specs::Syntax::opened))]
pub(crate) fn before(
    alloc: Global,
    plan: &Plan,
    bound: &Bound,
    formula: &Formula,
    room: u64,
) -> Result<(Formula, u64), Stop>
    requires { room ≤ 1000000 }
    ensures made { IfOk result (λ r. r.0 ≡ formula_of (step_of plan.now) (around_of bound.now).over formula.now) }
    ensures left { IfOk result (λ r. r.1 + formula_parts (formula_of (step_of plan.now) (around_of bound.now).over formula.now) ≡ room) }
    ensures lacks { (result ≡ Err Stop.Room) → room < formula_parts (formula_of (step_of plan.now) (around_of bound.now).over formula.now) }
{
    match formula {
        Formula::True => Ok((Formula::True, less(room, 1)?)),
        Formula::False => Ok((Formula::False, less(room, 1)?)),
        Formula::Eq(left, right) => {
            let (left, right, room) = terms_before(alloc, plan, bound, left, right, room)?;
            Ok((Formula::Eq(left, right), room))
        }
        Formula::Lt(left, right) => {
            let (left, right, room) = terms_before(alloc, plan, bound, left, right, room)?;
            Ok((Formula::Lt(left, right), room))
        }
        Formula::Le(left, right) => {
            let (left, right, room) = terms_before(alloc, plan, bound, left, right, room)?;
            Ok((Formula::Le(left, right), room))
        }
        Formula::Not(body) => {
            let room = less(room, 1)?;
            let (body, room) = body_before(alloc, plan, bound, body, room)?;
            Ok((Formula::Not(body), room))
        }
        Formula::And(left, right) => {
            let (left, right, room) = bodies_before(alloc, plan, bound, left, right, room)?;
            Ok((Formula::And(left, right), room))
        }
        Formula::Or(left, right) => {
            let (left, right, room) = bodies_before(alloc, plan, bound, left, right, room)?;
            Ok((Formula::Or(left, right), room))
        }
        Formula::Implies(left, right) => {
            let (left, right, room) = bodies_before(alloc, plan, bound, left, right, room)?;
            Ok((Formula::Implies(left, right), room))
        }
        Formula::All { sym, body } => {
            let room = less(room, 1)?;
            let under = Bound::Variable(&*bound, *sym);
            let (body, room) = body_before(alloc, plan, &under, body, room)?;
            Ok((Formula::All { sym: *sym, body }, room))
        }
        Formula::Exists { sym, body } => {
            let room = less(room, 1)?;
            let under = Bound::Variable(&*bound, *sym);
            let (body, room) = body_before(alloc, plan, &under, body, room)?;
            Ok((Formula::Exists { sym: *sym, body }, room))
        }
        Formula::Each {
            msg,
            label,
            tag,
            body,
        } => {
            let over = is_over(plan, *label, *tag);
            let under = Bound::Message(&*bound, *msg, over);
            let (body, room) = before(alloc, plan, &under, body.get(), room)?;
            each_before(alloc, plan, over, *msg, *label, *tag, &body, room)
        }
        Formula::Any {
            msg,
            label,
            tag,
            body,
        } => {
            let over = is_over(plan, *label, *tag);
            let under = Bound::Message(&*bound, *msg, over);
            let (body, room) = before(alloc, plan, &under, body.get(), room)?;
            any_before(alloc, plan, over, *msg, *label, *tag, &body, room)
        }
    }
}

#[cycle(before)]
fn body_before(
    alloc: Global,
    plan: &Plan,
    bound: &Bound,
    body: &Boxed<Formula>,
    room: u64,
) -> Result<(Boxed<Formula>, u64), Stop>
    requires { room ≤ 1000000 }
    ensures made { IfOk result (λ r. r.0 ≡ formula_of (step_of plan.now) (around_of bound.now).over body.now) }
    ensures left { IfOk result (λ r. r.1 + formula_parts (formula_of (step_of plan.now) (around_of bound.now).over body.now) ≡ room) }
    ensures lacks { (result ≡ Err Stop.Room) → room < formula_parts (formula_of (step_of plan.now) (around_of bound.now).over body.now) }
{
    let (made, room) = before(alloc, plan, bound, body.get(), room)?;
    Ok((Boxed::new(alloc, made)?, room))
}

// Two parts of a formula, and what is left of the room after them and the formula.
#[cycle(before)]
fn bodies_before(
    alloc: Global,
    plan: &Plan,
    bound: &Bound,
    left: &Boxed<Formula>,
    right: &Boxed<Formula>,
    room: u64,
) -> Result<(Boxed<Formula>, Boxed<Formula>, u64), Stop>
    requires { room ≤ 1000000 }
    ensures left { IfOk result (λ r. r.0 ≡ formula_of (step_of plan.now) (around_of bound.now).over left.now) }
    ensures right { IfOk result (λ r. r.1 ≡ formula_of (step_of plan.now) (around_of bound.now).over right.now) }
    ensures rest { IfOk result (λ r. r.2 + (1 + (formula_parts (formula_of (step_of plan.now) (around_of bound.now).over left.now) + formula_parts (formula_of (step_of plan.now) (around_of bound.now).over right.now))) ≡ room) }
    ensures lacks { (result ≡ Err Stop.Room) → room < 1 + (formula_parts (formula_of (step_of plan.now) (around_of bound.now).over left.now) + formula_parts (formula_of (step_of plan.now) (around_of bound.now).over right.now)) }
{
    let room = less(room, 1)?;
    let (left, room) = body_before(alloc, plan, bound, left, room)?;
    let (right, room) = body_before(alloc, plan, bound, right, room)?;
    Ok((left, right, room))
}

// The two terms of a comparison, and what is left of the room after them and the comparison.
fn terms_before(
    alloc: Global,
    plan: &Plan,
    bound: &Bound,
    left: &Term,
    right: &Term,
    room: u64,
) -> Result<(Term, Term, u64), Stop>
    requires { room ≤ 1000000 }
    ensures left { IfOk result (λ r. r.0 ≡ term_of (step_of plan.now) (around_of bound.now).over left.now) }
    ensures right { IfOk result (λ r. r.1 ≡ term_of (step_of plan.now) (around_of bound.now).over right.now) }
    ensures rest { IfOk result (λ r. r.2 + (1 + (parts (term_of (step_of plan.now) (around_of bound.now).over left.now) + parts (term_of (step_of plan.now) (around_of bound.now).over right.now))) ≡ room) }
    ensures lacks { (result ≡ Err Stop.Room) → room < 1 + (parts (term_of (step_of plan.now) (around_of bound.now).over left.now) + parts (term_of (step_of plan.now) (around_of bound.now).over right.now)) }
{
    let room = less(room, 1)?;
    let (left, room) = term_before(alloc, plan, bound, left, room)?;
    let (right, room) = term_before(alloc, plan, bound, right, room)?;
    Ok((left, right, room))
}

// The formula with the new message in place of `msg`, and what is left of the room after it.
fn with_new(
    alloc: Global,
    new: &NewMessage,
    msg: u32,
    body: &Formula,
    room: u64,
) -> Result<(Boxed<Formula>, u64), Stop>
    requires { room ≤ 1000000 }
    ensures made { IfOk result (λ r. r.0 ≡ message_substituted body.now msg new.now) }
    ensures left { IfOk result (λ r. r.1 + formula_parts (message_substituted body.now msg new.now) ≡ room) }
    ensures lacks { (result ≡ Err Stop.Room) → room < formula_parts (message_substituted body.now msg new.now) }
{
    let Some(left) = room_after_message(body, msg, new, room) else {
        return Err(Stop::Room);
    };
    let made = put_message(alloc, body, msg, new)?;
    Ok((Boxed::new(alloc, made)?, left))
}

#[tactic(auto, unfolding(dl_term::specs::Syntax::opened))]
fn each(alloc: Global, msg: u32, label: Lab, tag: u8, body: &Formula) -> Result<Formula, AllocError>
    ensures { IfOk result (λ made. made ≡ Each msg label tag body.now) }
{
    let body = copy_formula(alloc, body)?;
    let body = Boxed::new(alloc, body)?;
    Ok(Formula::Each {
        msg,
        label,
        tag,
        body,
    })
}

fn boxed_each(
    alloc: Global,
    msg: u32,
    label: Lab,
    tag: u8,
    body: &Formula,
) -> Result<Boxed<Formula>, AllocError>
    ensures { IfOk result (λ made. made ≡ Each msg label tag body.now) }
{
    let made = each(alloc, msg, label, tag, body)?;
    Boxed::new(alloc, made)
}

// A quantifier over the messages of the tag that is sent, and what is left of the room but for its body.
#[tactic(auto, unfolding(dl_term::specs::Syntax::opened))]
fn each_sent(
    alloc: Global,
    new: &NewMessage,
    msg: u32,
    label: Lab,
    tag: u8,
    body: &Formula,
    room: u64,
) -> Result<(Formula, u64), Stop>
    requires { room ≤ 1000000 }
    ensures made { IfOk result (λ r. r.0 ≡ each_of (Sends new.now) true msg label tag body.now) }
    ensures left { IfOk result (λ r. r.1 + formula_parts (each_of (Sends new.now) true msg label tag body.now) ≡ room + formula_parts body.now) }
    ensures lacks { (result ≡ Err Stop.Room) → room + formula_parts body.now < formula_parts (each_of (Sends new.now) true msg label tag body.now) }
{
    let room = less(room, 2)?;
    let (sent, room) = with_new(alloc, new, msg, body, room)?;
    let kept = boxed_each(alloc, msg, label, tag, body)?;
    Ok((Formula::And(kept, sent), room))
}

// A quantifier over messages by its body before the step, and what is left of the room but for that.
#[tactic(auto, unfolding(dl_term::specs::Syntax::opened))]
fn each_before(
    alloc: Global,
    plan: &Plan,
    over: bool,
    msg: u32,
    label: Lab,
    tag: u8,
    body: &Formula,
    room: u64,
) -> Result<(Formula, u64), Stop>
    requires { room ≤ 1000000 }
    ensures made { IfOk result (λ r. r.0 ≡ each_of (move_of plan.now.motion) over msg label tag body.now) }
    ensures left { IfOk result (λ r. r.1 + formula_parts (each_of (move_of plan.now.motion) over msg label tag body.now) ≡ room + formula_parts body.now) }
    ensures lacks { (result ≡ Err Stop.Room) → room + formula_parts body.now < formula_parts (each_of (move_of plan.now.motion) over msg label tag body.now) }
{
    match (&plan.motion, over) {
        (Motion::Sends(new), true) => each_sent(alloc, *new, msg, label, tag, body, room),
        _ => {
            let room = less(room, 1)?;
            Ok((each(alloc, msg, label, tag, body)?, room))
        }
    }
}

#[tactic(auto, unfolding(dl_term::specs::Syntax::opened))]
fn any(alloc: Global, msg: u32, label: Lab, tag: u8, body: &Formula) -> Result<Formula, AllocError>
    ensures { IfOk result (λ made. made ≡ Any msg label tag body.now) }
{
    let body = copy_formula(alloc, body)?;
    let body = Boxed::new(alloc, body)?;
    Ok(Formula::Any {
        msg,
        label,
        tag,
        body,
    })
}

fn boxed_any(
    alloc: Global,
    msg: u32,
    label: Lab,
    tag: u8,
    body: &Formula,
) -> Result<Boxed<Formula>, AllocError>
    ensures { IfOk result (λ made. made ≡ Any msg label tag body.now) }
{
    let made = any(alloc, msg, label, tag, body)?;
    Boxed::new(alloc, made)
}

// A quantifier over the messages of the tag that is sent, and what is left of the room but for its body.
#[tactic(auto, unfolding(dl_term::specs::Syntax::opened))]
fn any_sent(
    alloc: Global,
    new: &NewMessage,
    msg: u32,
    label: Lab,
    tag: u8,
    body: &Formula,
    room: u64,
) -> Result<(Formula, u64), Stop>
    requires { room ≤ 1000000 }
    ensures made { IfOk result (λ r. r.0 ≡ any_of (Sends new.now) true msg label tag body.now) }
    ensures left { IfOk result (λ r. r.1 + formula_parts (any_of (Sends new.now) true msg label tag body.now) ≡ room + formula_parts body.now) }
    ensures lacks { (result ≡ Err Stop.Room) → room + formula_parts body.now < formula_parts (any_of (Sends new.now) true msg label tag body.now) }
{
    let room = less(room, 2)?;
    let (sent, room) = with_new(alloc, new, msg, body, room)?;
    let kept = boxed_any(alloc, msg, label, tag, body)?;
    Ok((Formula::Or(kept, sent), room))
}

// A quantifier over messages by its body before the step, and what is left of the room but for that.
#[tactic(auto, unfolding(dl_term::specs::Syntax::opened))]
fn any_before(
    alloc: Global,
    plan: &Plan,
    over: bool,
    msg: u32,
    label: Lab,
    tag: u8,
    body: &Formula,
    room: u64,
) -> Result<(Formula, u64), Stop>
    requires { room ≤ 1000000 }
    ensures made { IfOk result (λ r. r.0 ≡ any_of (move_of plan.now.motion) over msg label tag body.now) }
    ensures left { IfOk result (λ r. r.1 + formula_parts (any_of (move_of plan.now.motion) over msg label tag body.now) ≡ room + formula_parts body.now) }
    ensures lacks { (result ≡ Err Stop.Room) → room + formula_parts body.now < formula_parts (any_of (move_of plan.now.motion) over msg label tag body.now) }
{
    match (&plan.motion, over) {
        (Motion::Sends(new), true) => any_sent(alloc, *new, msg, label, tag, body, room),
        _ => {
            let room = less(room, 1)?;
            Ok((any(alloc, msg, label, tag, body)?, room))
        }
    }
}
