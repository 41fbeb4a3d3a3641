//! What a name in a formula or a term stands for.

ghost use Rattle.std.specs.Prelude.{◌≡◌, ◌++◌, ◌||◌, [], is_some, slice_get, if◌then◌else◌};
ghost use Rattle.std.specs.Str.{bytes_eq};
ghost use Rattle.std.specs.Option.{option_copied, option_map};
ghost use Rattle.dl_forms.specs.Context.{is_among, look_up};
ghost use Rattle.dl_forms.specs.Judge.{protocol_named, protocol_parts, row_at, row_in, tags_in, name_rule};
ghost use Rattle.dl_notation.specs.Rules.{hook_labels, inner_parts};
ghost use Rattle.dl_rules.specs.Sights.{bindings, bound_messages, bound_names, bound_variables, context_of, labels_in, numbers_in, protocols_in, seen, taken_in, variables_in, words_in};
ghost use Rattle.dl_scope.specs.Walked.{environment};

use crate::rules::rule_if;
use crate::sight::{Bound, Labels, Sight, Variables};
use dl_forms::Position;
use dl_scope::{
    Protocol, Text, Walk, is_among, is_reserved, label_named, look_up, protocol_at, value_at,
};
use dl_tree::Tree;

/// Whether a quantifier over numbers around the place binds the name.
fn is_bound_variable(bound: &Bound, text: &Text) -> bool
    ensures { result ≡ is_among text.now (bound_variables (bindings bound.now)) }
{
    match bound {
        Bound::Nothing => false,
        Bound::Variable(around, name) => {
            text.as_str() == *name || is_bound_variable(around, text)
        }
        Bound::Message(around, _) => is_bound_variable(around, text),
    }
}

/// Whether a quantifier over messages around the place binds the name.
fn is_bound_message(bound: &Bound, text: &Text) -> bool
    ensures { result ≡ is_among text.now (bound_messages (bindings bound.now)) }
{
    match bound {
        Bound::Nothing => false,
        Bound::Variable(around, _) => is_bound_message(around, text),
        Bound::Message(around, name) => { text.as_str() == *name || is_bound_message(around, text) }
    }
}

/// Whether a quantifier around the place binds the name.
fn is_bound(bound: &Bound, text: &Text) -> bool
    ensures { result ≡ is_among text.now (bound_names (bindings bound.now)) }
{
    match bound {
        Bound::Nothing => false,
        Bound::Variable(around, name) => text.as_str() == *name || is_bound(around, text),
        Bound::Message(around, name) => text.as_str() == *name || is_bound(around, text),
    }
}

/// Whether it is a variable of the item.
fn is_item_variable<'a>(walk: &Walk<'a>, text: &Text<'a>) -> bool
    ensures { result ≡ is_among text.now (environment walk.now).variables }
{
    is_among(text, walk.scope.variables.as_slice())
}

/// Whether a variable of these has the name.
#[tactic(auto, using(crate::proofs::AmongLemmas::among))]
fn is_variable_of<'a>(walk: &Walk<'a>, variables: Variables, text: &Text<'a>) -> bool
    ensures { result ≡ is_among text.now (variables_in (environment walk.now) variables) }
{
    match variables {
        Variables::Nothing => false,
        Variables::Me => text.is(b"me"),
        Variables::Item => is_item_variable(walk, text),
        Variables::Result => is_item_variable(walk, text) || text.is(b"result"),
        Variables::Locals => {
            is_item_variable(walk, text) || is_among(text, walk.scope.locals.as_slice())
        }
        Variables::Messages => {
            is_item_variable(walk, text) || is_among(text, walk.scope.messages.as_slice())
        }
    }
}

/// Whether a variable of these that is no message has the name.
fn is_number_of<'a>(walk: &Walk<'a>, variables: Variables, text: &Text<'a>) -> bool
    ensures { result ≡ is_among text.now (numbers_in (environment walk.now) variables) }
{
    match variables {
        Variables::Messages => is_item_variable(walk, text),
        Variables::Nothing => is_variable_of(walk, variables, text),
        Variables::Me => is_variable_of(walk, variables, text),
        Variables::Item => is_variable_of(walk, variables, text),
        Variables::Result => is_variable_of(walk, variables, text),
        Variables::Locals => is_variable_of(walk, variables, text),
    }
}

/// The value of a node or an enumerator.
#[tactic(auto, using(crate::proofs::AmongLemmas::words))]
pub(crate) fn word_value<'a>(walk: &Walk<'a>, hides: bool, text: &Text<'a>) -> Option<i64>
    ensures { result ≡ look_up text.now (words_in (environment walk.now) hides) }
{
    if hides && is_item_variable(walk, text) {
        return None;
    }
    value_at(text, &walk.words)
}

/// Whether the name may not be bound, quantifiers around it aside.
#[tactic(auto, using(crate::proofs::AmongLemmas::among))]
fn is_taken_in<'a>(walk: &Walk<'a>, variables: Variables, text: &Text<'a>) -> bool
    ensures { result ≡ is_among text.now (taken_in (environment walk.now) variables) }
{
    is_reserved(text)
        || is_number_of(walk, variables, text)
        || is_among(text, walk.scope.messages.as_slice())
        || is_among(text, walk.scope.hypotheses.as_slice())
        || walk.declared.contains(text)
        || walk.others.contains(text)
}

/// Whether the name may not be bound at the place.
#[tactic(auto, using(crate::proofs::AmongLemmas::among))]
fn is_taken<'x, 'a>(sight: &Sight<'x, 'a>, bound: &Bound, text: &Text<'a>) -> bool
    ensures { result ≡ is_among text.now (bound_names (bindings bound.now) ++ (context_of sight.now).taken) }
{
    is_bound(bound, text) || is_taken_in(sight.walk, sight.variables, text)
}

/// Whether the name is one of a number there.
#[tactic(auto, using(crate::proofs::AmongLemmas::among))]
fn is_number<'x, 'a>(sight: &Sight<'x, 'a>, bound: &Bound, text: &Text<'a>) -> bool
    ensures { result ≡ (is_among text.now (bound_variables (bindings bound.now) ++ (context_of sight.now).variables) || is_some (look_up text.now (context_of sight.now).words)) }
{
    is_bound_variable(bound, text)
        || is_variable_of(sight.walk, sight.variables, text)
        || word_value(sight.walk, sight.hides, text).is_some()
}

/// Whether the name is one of a message there.
#[tactic(auto, using(crate::proofs::AmongLemmas::among))]
fn is_message<'x, 'a>(sight: &Sight<'x, 'a>, bound: &Bound, text: &Text<'a>) -> bool
    ensures { result ≡ is_among text.now (bound_messages (bindings bound.now) ++ (context_of sight.now).messages) }
{
    is_bound_message(bound, text) || is_among(text, sight.walk.scope.messages.as_slice())
}

/// The text that a label has for the hook: its name, if it is the core or the client, and else none.
fn hook_text<'a>(walk: &Walk<'a>, label: &Text<'a>) -> Text<'a>
    ensures { result ≡ (if bytes_eq label.now (environment walk.now).core || bytes_eq label.now (environment walk.now).label then label.now else []) }
{
    if *label == walk.scope.core || *label == walk.scope.label {
        label.copy()
    } else {
        Text::new("")
    }
}

/// The number of the protocol of a label of the hook.
fn hook_label<'a>(walk: &Walk<'a>, text: &Text<'a>) -> Option<usize>
    ensures { result ≡ look_up text.now (hook_labels (environment walk.now) (environment walk.now).labels) }
{
    for label in walk.labels.as_slice() {
        if *text == hook_text(walk, &label.0) {
            return Some(label.1);
        }
    }
    None
}

/// The number of a label's protocol, among these labels.
fn label_in<'a>(walk: &Walk<'a>, labels: Labels, text: &Text<'a>) -> Option<usize>
    ensures { result ≡ look_up text.now (labels_in (environment walk.now) labels) }
{
    match labels {
        Labels::Nothing => None,
        Labels::Own => {
            if text.is(b"self") {
                Some(walk.protocols.len())
            } else {
                None
            }
        }
        Labels::File => label_named(walk, text),
        Labels::Hook => hook_label(walk, text),
    }
}

/// The number of the protocol of a label.
pub(crate) fn protocol_named<'x, 'a>(sight: &Sight<'x, 'a>, tree: &'a Tree) -> Option<usize>
    ensures { result ≡ protocol_named (context_of sight.now) tree.now }
{
    match tree {
        Tree::Sym { name, .. } => { label_in(sight.walk, sight.labels, &Text::new(name.as_str())) }
        Tree::Num { .. } => None,
        Tree::List { .. } => None,
    }
}

/// The protocol with this number, where the item's own has the last one.
#[tactic(auto, using(crate::proofs::AmongLemmas::parts))]
fn own_protocol_at<'x, 'a>(walk: &'x Walk<'a>, number: usize) -> Option<&'x Protocol<'a>>
    ensures { option_map inner_parts (option_copied result) ≡ slice_get (protocols_in (environment walk.now) Labels.Own) number }
{
    if number == walk.protocols.len() {
        return Some(&walk.scope.own);
    }
    protocol_at(walk, number)
}

/// The protocol with this number, where these labels may be named.
#[tactic(auto, using(crate::proofs::AmongLemmas::parts))]
fn protocol_in<'x, 'a>(
    walk: &'x Walk<'a>,
    labels: Labels,
    number: usize,
) -> Option<&'x Protocol<'a>>
    ensures { option_map inner_parts (option_copied result) ≡ slice_get (protocols_in (environment walk.now) labels) number }
{
    match labels {
        Labels::Nothing => None,
        Labels::Own => own_protocol_at(walk, number),
        Labels::File => protocol_at(walk, number),
        Labels::Hook => protocol_at(walk, number),
    }
}

/// The protocol with this number, where one is known.
fn parts_of<'x, 'a>(sight: &Sight<'x, 'a>, protocol: Option<usize>) -> Option<&'x Protocol<'a>>
    ensures { option_map inner_parts (option_copied result) ≡ protocol_parts (context_of sight.now) protocol }
{
    match protocol {
        Some(number) => protocol_in(sight.walk, sight.labels, number),
        None => None,
    }
}

/// Whether the field of a protocol is a row, where both are known.
pub(crate) fn row_in<'x, 'a>(
    sight: &Sight<'x, 'a>,
    protocol: Option<usize>,
    field: &Text<'a>,
) -> Option<bool>
    ensures { result ≡ row_in (protocol_parts (context_of sight.now) protocol) field.now }
{
    match parts_of(sight, protocol) {
        Some(protocol) => look_up(field, protocol.fields.as_slice()).copied(),
        None => None,
    }
}

/// Whether the protocol has the tag.
fn is_tag_of<'a>(protocol: &Protocol<'a>, tag: &Text<'a>) -> bool
    ensures { result ≡ is_some (look_up tag.now protocol.now.tags) }
{
    look_up(tag, protocol.tags.as_slice()).is_some()
}

/// Whether the protocol, where it is known, has the tag.
#[tactic(auto, using(crate::proofs::AmongLemmas::parts))]
fn has_tag<'x, 'a>(sight: &Sight<'x, 'a>, protocol: Option<usize>, tag: &Text<'a>) -> bool
    ensures { result ≡ is_among tag.now (tags_in (protocol_parts (context_of sight.now) protocol)) }
{
    match parts_of(sight, protocol) {
        Some(protocol) => is_tag_of(protocol, tag),
        None => false,
    }
}

/// The rule that a name breaks in its position, behind these quantifiers and the label before.
pub(crate) fn name_rule<'x, 'a>(
    sight: &Sight<'x, 'a>,
    bound: &Bound,
    label: Option<usize>,
    position: Position,
    text: &Text<'a>,
) -> Option<u8>
    ensures { result ≡ name_rule (seen (context_of sight.now) (bindings bound.now) label) position text.now }
{
    match position {
        Position::Term => rule_if(11, !is_number(sight, bound, text)),
        Position::Label => {
            let number = label_in(sight.walk, sight.labels, text);
            rule_if(11, number.is_none())
        }
        Position::Field => rule_if(11, row_in(sight, label, text).is_none()),
        Position::Tag => rule_if(11, !has_tag(sight, label, text)),
        Position::Message => rule_if(11, !is_message(sight, bound, text)),
        Position::NewVariable | Position::NewMessage => {
            rule_if(13, is_taken(sight, bound, text))
        }
        Position::Formula | Position::Argument => None,
    }
}

/// Whether a field of a label is a row, where both are known.
pub(crate) fn row_at<'x, 'a>(
    sight: &Sight<'x, 'a>,
    label: &'a Tree,
    field: &'a Tree,
) -> Option<bool>
    ensures { result ≡ row_at (context_of sight.now) label.now field.now }
{
    match field {
        Tree::Sym { name, .. } => {
            let protocol = protocol_named(sight, label);
            row_in(sight, protocol, &Text::new(name.as_str()))
        }
        Tree::Num { .. } => None,
        Tree::List { .. } => None,
    }
}
