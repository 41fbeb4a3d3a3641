//! Terms: what is known in them, how large their values may be, and whether they are local.

ghost use Rattle.std.specs.Prelude.{◌≡◌, true, is_some};
ghost use Rattle.dl_term.specs.Measures.{IsNarrow};
ghost use Rattle.dl_model.specs.Scopes.{is_part, is_me, is_local_term};
ghost use Rattle.dl_model.specs.Sorts.{is_i64};
ghost use Rattle.dl_formed.specs.Scoped.{scope_of};
ghost use Rattle.dl_formed.specs.Known.{term_is_known, within, after, larger, sum_within, product_within, narrow_bound, is_narrow, is_term, is_term_of_step};

use crate::scope::Known;
use dl_term::{Part, Term};

// The number of the name of `me`.
pub(crate) const ME: u32 = 4;

// A bound of each number that is read of the state or of a name.
const READ: u128 = 1 << 63;

// The bounds of narrow terms are below this.
const NARROW: u128 = 1 << 127;

// Whether the term is known and narrow.
pub(crate) fn is_term(term: &Term, known: &Known) -> bool
    ensures is { result ≡ is_term (scope_of known.now) term.now }
    ensures narrow { result ≡ true → IsNarrow term.now }
{
    is_judged(term, known)
}

fn is_judged(term: &Term, known: &Known) -> bool
    ensures { result ≡ is_term (scope_of known.now) term.now }
{
    is_known(term, known) && is_narrow(term)
}

// Whether the term is known, narrow and local.
pub(crate) fn is_term_of_step(term: &Term, known: &Known) -> bool
    ensures { result ≡ is_term_of_step (scope_of known.now) term.now }
{
    is_judged(term, known) && is_local(term)
}

// Whether each label, field, variable and message in the term is known.
#[tactic(auto, unfolding(dl_term::specs::Syntax::opened))]
pub(crate) fn is_known(term: &Term, known: &Known) -> bool
    ensures { result ≡ term_is_known (scope_of known.now) term.now }
{
    match term {
        Term::Num(value) => is_in_range(*value),
        Term::Word { value, .. } => is_in_range(*value),
        Term::Var(name) => known.has_variable(*name),
        Term::Field { label, field, node } => {
            known.has_field(*label, *field, false) && is_known(node.get(), known)
        }
        Term::Row {
            label,
            field,
            node,
            index,
        } => {
            known.has_field(*label, *field, true)
                && is_known(node.get(), known)
                && is_known(index.get(), known)
        }
        Term::Len(label) => known.has_label(*label),
        Term::Msg { msg, part } => known.has_message(*msg) && is_part(*part),
        Term::Add(left, right) => is_known(left.get(), known) && is_known(right.get(), known),
        Term::Sub(left, right) => is_known(left.get(), known) && is_known(right.get(), known),
        Term::Mul(left, right) => is_known(left.get(), known) && is_known(right.get(), known),
        Term::If(left, right, yes, no) => {
            is_known(left.get(), known)
                && is_known(right.get(), known)
                && is_known(yes.get(), known)
                && is_known(no.get(), known)
        }
    }
}

// A number of the code has 64 bits.
pub(crate) fn is_in_range(_value: i64) -> bool
    ensures { result ≡ is_i64 _value }
{
    true
}

fn is_part(part: Part) -> bool
    ensures { result ≡ is_part part }
{
    match part {
        Part::Arg(place) => place < 8,
        Part::Id => true,
        Part::From => true,
        Part::To => true,
        Part::Live => true,
    }
}

// Whether the bound of the term and of each term in it is below 2^127.
pub(crate) fn is_narrow(term: &Term) -> bool
    ensures { result ≡ is_narrow term.now }
{
    match narrow_bound(term) {
        Some(_) => true,
        None => false,
    }
}

// The bound of the term, where it and that of each term in it is below 2^127.
#[tactic(auto, unfolding(dl_term::specs::Syntax::opened))]
fn narrow_bound(term: &Term) -> Option<u128>
    ensures { result ≡ narrow_bound term.now }
{
    match term {
        Term::Num(value) => within(u128::from(value.unsigned_abs())),
        Term::Word { value, .. } => within(u128::from(value.unsigned_abs())),
        Term::Var(_) => Some(READ),
        Term::Field { node, .. } => after(narrow_bound(node.get()), Some(READ)),
        Term::Row { node, index, .. } => after(
            larger(narrow_bound(node.get()), narrow_bound(index.get())),
            Some(READ),
        ),
        Term::Len(_) => Some(READ),
        Term::Msg { .. } => Some(READ),
        Term::Add(left, right) => sum_within(narrow_bound(left.get()), narrow_bound(right.get())),
        Term::Sub(left, right) => sum_within(narrow_bound(left.get()), narrow_bound(right.get())),
        Term::Mul(left, right) => product_within(
            narrow_bound(left.get()),
            narrow_bound(right.get()),
        ),
        Term::If(left, right, yes, no) => after(
            larger(narrow_bound(left.get()), narrow_bound(right.get())),
            larger(narrow_bound(yes.get()), narrow_bound(no.get())),
        ),
    }
}

fn within(bound: u128) -> Option<u128>
    ensures { result ≡ within bound }
{
    if bound < NARROW { Some(bound) } else { None }
}

// The second bound, where there is a first.
fn after(first: Option<u128>, second: Option<u128>) -> Option<u128>
    ensures { result ≡ after first second }
{
    match first {
        Some(_) => second,
        None => None,
    }
}

fn larger(left: Option<u128>, right: Option<u128>) -> Option<u128>
    ensures { result ≡ larger left right }
{
    match left {
        Some(left) => match right {
            Some(right) => Some(left.max(right)),
            None => None,
        },
        None => None,
    }
}

fn sum_within(left: Option<u128>, right: Option<u128>) -> Option<u128>
    ensures { result ≡ sum_within left right }
{
    match left {
        Some(left) => match right {
            Some(right) => within(left.saturating_add(right)),
            None => None,
        },
        None => None,
    }
}

fn product_within(left: Option<u128>, right: Option<u128>) -> Option<u128>
    ensures { result ≡ product_within left right }
{
    match left {
        Some(left) => match right {
            Some(right) => within(left.saturating_mul(right)),
            None => None,
        },
        None => None,
    }
}

// Whether the term reads fields of `me` alone, and no length.
#[tactic(auto, unfolding(dl_term::specs::Syntax::opened))]
pub(crate) fn is_local(term: &Term) -> bool
    ensures { result ≡ is_local_term term.now }
{
    match term {
        Term::Num(_) => true,
        Term::Word { .. } => true,
        Term::Var(_) => true,
        Term::Field { node, .. } => is_me(node.get()),
        Term::Row { node, index, .. } => is_me(node.get()) && is_local(index.get()),
        Term::Len(_) => false,
        Term::Msg { .. } => true,
        Term::Add(left, right) => is_local(left.get()) && is_local(right.get()),
        Term::Sub(left, right) => is_local(left.get()) && is_local(right.get()),
        Term::Mul(left, right) => is_local(left.get()) && is_local(right.get()),
        Term::If(left, right, yes, no) => {
            (is_local(left.get()) && is_local(right.get()))
                && (is_local(yes.get()) && is_local(no.get()))
        }
    }
}

#[tactic(auto, unfolding(dl_term::specs::Syntax::opened))]
fn is_me(term: &Term) -> bool
    ensures { result ≡ is_me term.now }
{
    match term {
        Term::Var(name) => *name == ME,
        _ => false,
    }
}
