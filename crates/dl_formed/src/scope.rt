//! What may be named in a term or a formula.

ghost use Rattle.std.specs.Prelude.{◌≡◌, ◌||◌, ◌==◌, Some, is_some};
ghost use Rattle.std.specs.Option.{option_copied};
ghost use Rattle.dl_model.specs.Sorts.{has};
ghost use Rattle.dl_model.specs.Scopes.{file_label, hook_label, is_field, is_tag, is_fresh};
ghost use Rattle.dl_formed.specs.Scoped.{protocols_of, scope_of};

use crate::names::has_name;
use dl_model::{Hook, Instances, Protocol};
use dl_term::Lab;
use sqlite_items::at;

// The number of the first name that a file may declare.
pub(crate) const FIRST_NAME: u32 = 18;

// The labels that may be named.
#[derive(Clone, Copy)]
pub(crate) enum Labels<'a> {
    // None.
    Nowhere,
    // `self`, in a protocol.
    Own(&'a Protocol),
    // Each label of the file.
    File(&'a Instances),
    // The core and the client of a hook.
    Hooked(&'a Instances, &'a Hook),
}

impl<'a> Labels<'a> {
    // The protocol of the label, where it may be named.
    fn protocol(&self, label: Lab) -> Option<&Protocol>
        ensures { option_copied result ≡ protocols_of self.now label }
    {
        match self {
            Labels::Nowhere => None,
            Labels::Own(protocol) => match label {
                Lab::Own => Some(protocol),
                Lab::At(_) => None,
            },
            Labels::File(inst) => in_file(inst, label),
            Labels::Hooked(inst, hook) => in_hook(inst, hook, label),
        }
    }
}

// The protocol of a label of the file.
pub(crate) fn in_file(inst: &Instances, label: Lab) -> Option<&Protocol>
    ensures { option_copied result ≡ file_label inst.now label }
{
    match label {
        Lab::Own => None,
        Lab::At(label) => match at(inst.of.as_slice(), usize::from(label)) {
            Some(protocol) => at(inst.protocols.as_slice(), usize::from(*protocol)),
            None => None,
        },
    }
}

fn in_hook<'a>(inst: &'a Instances, hook: &Hook, label: Lab) -> Option<&'a Protocol>
    ensures { option_copied result ≡ hook_label inst.now hook.now label }
{
    match label {
        Lab::Own => None,
        Lab::At(position) => {
            if is_side(hook, position) {
                in_file(inst, label)
            } else {
                None
            }
        }
    }
}

// Whether the label is the hook's core or its client.
fn is_side(hook: &Hook, label: u8) -> bool
    ensures { result ≡ ((label == hook.now.core) || (label == hook.now.client)) }
{
    label == hook.core || label == hook.client
}

// What is known in a term, from the innermost quantifier.
#[derive(Clone, Copy)]
pub(crate) enum Known<'a> {
    // These labels and variables.
    Base(Labels<'a>, &'a [u32]),
    // A variable that a quantifier binds.
    Variable(&'a Known<'a>, u32),
    // A message that a quantifier binds.
    Message(&'a Known<'a>, u32),
}

impl<'a> Known<'a> {
    fn protocol(&self, label: Lab) -> Option<&Protocol>
        ensures { option_copied result ≡ (scope_of self.now).protocol label }
    {
        match self {
            Known::Base(labels, _) => labels.protocol(label),
            Known::Variable(outer, _) => outer.protocol(label),
            Known::Message(outer, _) => outer.protocol(label),
        }
    }

    // Whether the label may be named.
    pub(crate) fn has_label(&self, label: Lab) -> bool
        ensures { result ≡ is_some ((scope_of self.now).protocol label) }
    {
        match self.protocol(label) {
            Some(_) => true,
            None => false,
        }
    }

    // Whether the label's protocol has the field, and it is a row or isn't one.
    pub(crate) fn has_field(&self, label: Lab, field: u8, row: bool) -> bool
        ensures { result ≡ is_field ((scope_of self.now).protocol label) field row }
    {
        match self.protocol(label) {
            Some(protocol) => is_field_of(protocol, field, row),
            None => false,
        }
    }

    // Whether the label's protocol has the tag.
    pub(crate) fn has_tag(&self, label: Lab, tag: u8) -> bool
        ensures { result ≡ is_tag ((scope_of self.now).protocol label) tag }
    {
        match self.protocol(label) {
            Some(protocol) => is_tag_of(protocol, tag),
            None => false,
        }
    }

    // Whether the variable is known.
    pub(crate) fn has_variable(&self, name: u32) -> bool
        ensures { result ≡ has (scope_of self.now).variables name }
    {
        match self {
            Known::Base(_, variables) => has_name(variables, name),
            Known::Variable(outer, bound) => name == *bound || outer.has_variable(name),
            Known::Message(outer, _) => outer.has_variable(name),
        }
    }

    // Whether the message is known.
    pub(crate) fn has_message(&self, name: u32) -> bool
        ensures { result ≡ has (scope_of self.now).messages name }
    {
        match self {
            Known::Base(_, _) => false,
            Known::Variable(outer, _) => outer.has_message(name),
            Known::Message(outer, bound) => name == *bound || outer.has_message(name),
        }
    }

    // Whether a quantifier may bind the name.
    pub(crate) fn is_fresh(&self, name: u32) -> bool
        ensures { result ≡ is_fresh (scope_of self.now) name }
    {
        FIRST_NAME <= name && !(self.has_variable(name) || self.has_message(name))
    }
}

fn is_field_of(protocol: &Protocol, field: u8, row: bool) -> bool
    ensures { result ≡ is_field (Some protocol.now) field row }
{
    match at(protocol.fields.as_slice(), usize::from(field)) {
        Some(found) => if row { found.row } else { !found.row },
        None => false,
    }
}

fn is_tag_of(protocol: &Protocol, tag: u8) -> bool
    ensures { result ≡ is_tag (Some protocol.now) tag }
{
    usize::from(tag) < protocol.tags.len()
}
