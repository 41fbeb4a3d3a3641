//! The names that may not be bound.

ghost use Rattle.std.specs.Prelude.{◌≡◌, map, is_some, ◌||◌, true};
ghost use Rattle.dl_forms.specs.Context.{is_among};
ghost use Rattle.dl_forms.specs.Scope.{bindings, first_named, bound_names, taken, taken_outside, taken_with, text_at, sort_texts, marked, declared};
ghost use Rattle.dl_forms.specs.Table.{reserved, has_mark};

use crate::around::Around;
use crate::names::{has_text, is, message_in, variable_in};
use crate::scope::{Bound, Marks, Scope, SortDecl};
use crate::table::Names;
use dl_model::{Instances, Protocol};
use dl_tree::Name;

#[tactic(auto, unfolding(crate::specs::Table::reserved))]
fn is_reserved(name: &Name) -> bool
    ensures { result ≡ is_among name.now reserved }
{
    is(name, b"int")
        || is(name, b"bool")
        || is(name, b"node")
        || is(name, b"self")
        || is(name, b"me")
        || is(name, b"to")
        || is(name, b"from")
        || is(name, b"result")
        || is(name, b"goal")
        || is(name, b"pre")
        || is(name, b"guard")
        || is(name, b"fits")
        || is(name, b"hooks")
        || is(name, b"mine")
        || is(name, b"other")
        || is(name, b"test")
        || is(name, b"post")
        || is(name, b"frame")
}

fn is_bound(around: &Around, bound: &Bound, name: &Name) -> bool
    ensures { result ≡ is_among name.now (map (text_at around.now.names.now) (bound_names (bindings bound.now))) }
{
    match bound {
        Bound::Nothing => false,
        Bound::Variable(outer, sym) => {
            has_text(around.names, *sym, name) || is_bound(around, outer, name)
        }
        Bound::Message(outer, sym) => {
            has_text(around.names, *sym, name) || is_bound(around, outer, name)
        }
    }
}

/// Whether no quantifier may bind the name there.
#[tactic(auto, using(crate::proofs::TakenLemmas::taking))]
pub(crate) fn is_taken(around: &Around, bound: &Bound, name: &Name) -> bool
    ensures { result ≡ is_among name.now (taken around.now.names.now around.now.scope.now around.now.inst.now (bindings bound.now)) }
{
    is_bound(around, bound, name) || is_taken_outside(around, name)
}

fn is_in_scope(around: &Around, name: &Name) -> bool
    ensures { result ≡ (is_some (first_named around.now.names.now name.now (map (λ v. v.0) around.now.scope.now.vars)) || is_some (first_named around.now.names.now name.now (map (λ m. m.0) around.now.scope.now.messages))) }
{
    if variable_in(around.names, around.scope.vars.as_slice(), name).is_some() {
        return true;
    }
    message_in(around.names, around.scope.messages.as_slice(), name).is_some()
}

/// Whether one of the numbers has this text.
fn is_listed(names: &Names, all: &[u32], name: &Name) -> bool
    ensures { result ≡ is_among name.now (map (text_at names.now) all.now) }
{
    match all.split_first() {
        None => false,
        Some((first, rest)) => has_text(names, *first, name) || is_listed(names, rest, name),
    }
}

/// Whether a protocol has this text.
fn is_protocol(names: &Names, all: &[Protocol], name: &Name) -> bool
    ensures { result ≡ is_among name.now (map (λ p. text_at names.now p.sym) all.now) }
{
    match all.split_first() {
        None => false,
        Some((first, rest)) => has_text(names, first.sym, name) || is_protocol(names, rest, name),
    }
}

/// Whether a node or an enumerator has this text.
fn is_word(names: &Names, all: &[(u32, i64)], name: &Name) -> bool
    ensures { result ≡ is_among name.now (map (λ w. text_at names.now w.0) all.now) }
{
    match all.split_first() {
        None => false,
        Some((first, rest)) => has_text(names, first.0, name) || is_word(names, rest, name),
    }
}

/// Whether a sort or one of its enumerators has this text.
#[tactic(auto, using(crate::proofs::TakenLemmas::taking))]
fn is_sort(names: &Names, all: &[SortDecl], name: &Name) -> bool
    ensures { result ≡ is_among name.now (sort_texts names.now all.now) }
{
    match all.split_first() {
        None => false,
        Some((first, rest)) => {
            has_text(names, first.sym, name)
                || is_listed(names, first.values.as_slice(), name)
                || is_sort(names, rest, name)
        }
    }
}

/// Whether the name is marked.
#[tactic(auto, using(crate::proofs::TakenLemmas::marking))]
fn has_marked(names: &Names, quantified: bool, name: &Name) -> bool
    ensures { result ≡ is_among name.now (marked quantified names.now.texts names.now.marks) }
{
    match names.known(name) {
        Some(sym) => names.marked(sym, quantified),
        None => false,
    }
}

/// Whether a declaration has this text.
#[tactic(auto, using(crate::proofs::TakenLemmas::taking))]
fn is_declared(around: &Around, name: &Name) -> bool
    ensures { result ≡ is_among name.now (declared around.now.names.now around.now.scope.now around.now.inst.now) }
{
    is_sort(around.names, around.names.sorts(), name)
        || is_protocol(around.names, around.inst.protocols.as_slice(), name)
        || is_word(around.names, around.scope.words.as_slice(), name)
        || is_listed(around.names, around.scope.labels.as_slice(), name)
        || is_listed(around.names, around.scope.declared.as_slice(), name)
}

/// Whether the name may not be bound, by a quantifier or by another variable, quantifiers around it aside.
#[tactic(auto, using(crate::proofs::TakenLemmas::taking))]
fn is_taken_with(around: &Around, quantified: bool, name: &Name) -> bool
    ensures { result ≡ is_among name.now (taken_with quantified around.now.names.now around.now.scope.now around.now.inst.now) }
{
    is_reserved(name)
        || is_in_scope(around, name)
        || is_declared(around, name)
        || has_marked(around.names, quantified, name)
}

fn is_taken_outside(around: &Around, name: &Name) -> bool
    ensures { result ≡ is_among name.now (taken_outside around.now.names.now around.now.scope.now around.now.inst.now) }
{
    is_taken_with(around, false, name)
}

/// Whether no argument, parameter, local or name of a script may have the name.
pub fn is_taken_for_others(names: &Names, scope: &Scope, inst: &Instances, name: &Name) -> bool
    ensures { result ≡ is_among name.now (taken_with true names.now scope.now inst.now) }
{
    is_taken_with(&Around { names, scope, inst }, true, name)
}
