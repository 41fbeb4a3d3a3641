//! The value of a term and the truth of a formula.

ghost use Rattle.std.specs.Prelude.{pos, ◌≡◌, ◌≤◌, ◌<◌, ◌*◌, ◌^◌, ◌*ℤ◌, length, IsTrue, Some, None, unsigned_abs, MatchOption};
ghost use Rattle.std.specs.Option.{option_map};
ghost use Rattle.dl_term.specs.Names.{names_of, label_of, with_number, with_message, Stored};
ghost use Rattle.dl_term.specs.Meaning.{value, holds, part_in, every_below, some_below, every_message, some_message};
ghost use Rattle.dl_term.specs.Measures.{bound, IsNarrow, EachIsNarrow};

use crate::syntax::{Env, Formula, Lab, Part, Term};
use crate::view::View;

/// The value of a term with these names, in this state. It takes no memory.
///
/// The condition is that the bound of the term and of each term in it is at most 2^127 - 1.
#[tactic(auto, unfolding(crate::specs::Syntax::opened))]
pub fn value<V: View>(term: &Term, env: &Env, state: &V) -> i128
    requires { IsNarrow term.now }
    ensures value { result ≡ value term.now (names_of env.now) (V.state state.now) }
    ensures within { unsigned_abs result ≤ bound term.now }
{
    match term {
        Term::Num(value) => i128::from(*value),
        Term::Word { value, .. } => i128::from(*value),
        Term::Var(sym) => i128::from(number(env, *sym)),
        Term::Field { label, field, node } => {
            let node = value(node.get(), env, state);
            i128::from(state.field(label_in(env, *label), *field, node, 0))
        }
        Term::Row {
            label,
            field,
            node,
            index,
        } => {
            let node = value(node.get(), env, state);
            let index = value(index.get(), env, state);
            i128::from(state.field(label_in(env, *label), *field, node, index))
        }
        Term::Len(label) => i128::from(state.len(label_in(env, *label))),
        Term::Msg { msg, part } => i128::from(message_part(env, *msg, *part, state)),
        Term::Add(left, right) => value(left.get(), env, state) + value(right.get(), env, state),
        Term::Sub(left, right) => value(left.get(), env, state) - value(right.get(), env, state),
        Term::Mul(left, right) => multiply(
            value(left.get(), env, state),
            value(right.get(), env, state),
        ),
        Term::If(left, right, yes, no) => {
            if value(left.get(), env, state) == value(right.get(), env, state) {
                value(yes.get(), env, state)
            } else {
                value(no.get(), env, state)
            }
        }
    }
}

// A product that fits.
fn multiply(left: i128, right: i128) -> i128
    requires { unsigned_abs left * unsigned_abs right < 2 ^ 127 }
    ensures product { result ≡ left *ℤ right }
    ensures size { unsigned_abs result ≡ unsigned_abs left * unsigned_abs right }
{
    left * right
}

fn number(env: &Env, sym: u32) -> i64
    ensures { result ≡ (names_of env.now).number sym }
{
    match env {
        Env::Empty(_) => 0,
        Env::Number(outer, name, value) => {
            if sym == *name {
                *value
            } else {
                number(outer, sym)
            }
        }
        Env::Message(outer, _, _, _) => number(outer, sym),
    }
}

fn message(env: &Env, msg: u32) -> Option<(u8, u32)>
    ensures { option_map (λ m. Stored m.0 m.1) result ≡ (names_of env.now).message msg }
{
    match env {
        Env::Empty(_) => None,
        Env::Number(outer, _, _) => message(outer, msg),
        Env::Message(outer, name, label, id) => {
            if msg == *name {
                Some((*label, *id))
            } else {
                message(outer, msg)
            }
        }
    }
}

fn message_part<V: View>(env: &Env, msg: u32, part: Part, state: &V) -> i64
    ensures { result ≡ part_in (V.state state.now) ((names_of env.now).message msg) part }
{
    match message(env, msg) {
        Some((label, id)) => state.part(label, id, part),
        None => 0,
    }
}

fn own_label(env: &Env) -> u8
    ensures { result ≡ (names_of env.now).own }
{
    match env {
        Env::Empty(own) => *own,
        Env::Number(outer, _, _) => own_label(outer),
        Env::Message(outer, _, _, _) => own_label(outer),
    }
}

fn label_in(env: &Env, label: Lab) -> u8
    ensures { result ≡ label_of (names_of env.now).own label }
{
    match label {
        Lab::Own => own_label(env),
        Lab::At(label) => label,
    }
}

/// Whether a formula holds with these names, in this state. It takes no memory.
///
/// The condition is that the bound of each term in it is at most 2^127 - 1.
#[cycle(holds)]
#[tactic(auto, unfolding(crate::specs::Syntax::opened))]
pub fn holds<V: View>(formula: &Formula, env: &Env, state: &V) -> bool
    requires { EachIsNarrow formula.now }
    ensures { result ≡ holds formula.now (names_of env.now) (V.state state.now) }
{
    match formula {
        Formula::True => true,
        Formula::False => false,
        Formula::Eq(left, right) => value(left, env, state) == value(right, env, state),
        Formula::Lt(left, right) => value(left, env, state) < value(right, env, state),
        Formula::Le(left, right) => value(left, env, state) <= value(right, env, state),
        Formula::Not(body) => !holds(body.get(), env, state),
        Formula::And(left, right) => holds(left.get(), env, state)
            && holds(right.get(), env, state),
        Formula::Or(left, right) => holds(left.get(), env, state) || holds(right.get(), env, state),
        Formula::Implies(left, right) => !holds(left.get(), env, state)
            || holds(right.get(), env, state),
        Formula::All { sym, body } => at_every_node(*sym, body.get(), env, state),
        Formula::Exists { sym, body } => at_some_node(*sym, body.get(), env, state),
        Formula::Each {
            msg,
            label,
            tag,
            body,
        } => { at_every_message(*msg, label_in(env, *label), *tag, body.get(), env, state) }
        Formula::Any {
            msg,
            label,
            tag,
            body,
        } => { at_some_message(*msg, label_in(env, *label), *tag, body.get(), env, state) }
    }
}

#[cycle(holds)]
fn at_every_node<V: View>(sym: u32, body: &Formula, env: &Env, state: &V) -> bool
    requires { EachIsNarrow body.now }
    ensures { result ≡ every_below (V.state state.now).nodes (λ node. holds body.now (with_number (names_of env.now) sym (pos node)) (V.state state.now)) }
{
    for node in 0..state.nodes() {
        if !holds(body, &Env::Number(&*env, sym, i64::from(node)), state) {
            return false;
        }
    }
    true
}

#[cycle(holds)]
fn at_some_node<V: View>(sym: u32, body: &Formula, env: &Env, state: &V) -> bool
    requires { EachIsNarrow body.now }
    ensures { result ≡ some_below (V.state state.now).nodes (λ node. holds body.now (with_number (names_of env.now) sym (pos node)) (V.state state.now)) }
{
    for node in 0..state.nodes() {
        if holds(body, &Env::Number(&*env, sym, i64::from(node)), state) {
            return true;
        }
    }
    false
}

#[cycle(holds)]
fn at_every_message<V: View>(
    msg: u32,
    label: u8,
    tag: u8,
    body: &Formula,
    env: &Env,
    state: &V,
) -> bool
    requires { EachIsNarrow body.now }
    ensures { result ≡ every_message (V.state state.now) label tag (λ id. holds body.now (with_message (names_of env.now) msg (Stored label id)) (V.state state.now)) }
{
    for id in 0..state.len(label) {
        if state.tag(label, id) == tag
            && !holds(body, &Env::Message(&*env, msg, label, id), state)
        {
            return false;
        }
    }
    true
}

#[cycle(holds)]
fn at_some_message<V: View>(
    msg: u32,
    label: u8,
    tag: u8,
    body: &Formula,
    env: &Env,
    state: &V,
) -> bool
    requires { EachIsNarrow body.now }
    ensures { result ≡ some_message (V.state state.now) label tag (λ id. holds body.now (with_message (names_of env.now) msg (Stored label id)) (V.state state.now)) }
{
    for id in 0..state.len(label) {
        if state.tag(label, id) == tag && holds(body, &Env::Message(&*env, msg, label, id), state) {
            return true;
        }
    }
    false
}
