//! Labels, fields, tags and messages by their names.

ghost use Rattle.std.specs.Prelude.{unwrap_or, not, true, false, ◌≡◌, ◌≤◌, IfOk, IfErr, IfSome, IfNone, IsSome, None, Some, length, map, is_some, ◌||◌, ◌&&◌, codes};
ghost use Rattle.std.specs.Str.{bytes_eq};
ghost use Rattle.std.specs.Option.{option_copied};
ghost use Rattle.dl_forms.specs.Context.{look_up, is_among};
ghost use Rattle.dl_forms.specs.Judge.{fault, row_at, protocol_named};
ghost use Rattle.dl_forms.specs.Scope.{bindings, context_of, labels_of, first_named, messages, variables, bound_names, taken, taken_outside, text_at, field_named, tag_named};
ghost use Rattle.dl_forms.specs.Table.{reserved};
ghost use Rattle.dl_forms.specs.Read.{IsLabel, IsFault, IsFormed, ReadsLabel, ReadsField, ReadsTag, ReadsMessage, names_stage, label_stage};
ghost use Rattle.dl_forms.specs.Show.{label, symbol, protocol_of, protocol_at};

use crate::fault::FormFault;
use crate::form::is_name;
use crate::names::{
    bound_message, bound_variable, field_in, is, message_in, place_in, tag_in, variable_in,
};
use crate::position::Position;
use crate::scope::{Bound, Scope};
use crate::table::Names;
use dl_model::{Instances, Protocol};
use dl_term::Lab;
use dl_tree::{Name, Tree};

/// What a reader looks names up in.
#[derive(Clone, Copy)]
pub(crate) struct Around<'a> {
    pub names: &'a Names,
    pub scope: &'a Scope,
    pub inst: &'a Instances,
}

/// The variable with this text.
#[tactic(auto, using(crate::proofs::NameLemmas::names))]
pub(crate) fn variable(around: &Around, bound: &Bound, name: &Name) -> Option<u32>
    ensures { result ≡ first_named around.now.names.now name.now (variables around.now.scope.now (bindings bound.now)) }
{
    match bound_variable(around.names, bound, name) {
        Some(sym) => Some(sym),
        None => variable_in(around.names, around.scope.vars.as_slice(), name),
    }
}

/// The message with this text.
#[tactic(auto, using(crate::proofs::NameLemmas::names))]
fn message_named(around: &Around, bound: &Bound, name: &Name) -> Option<u32>
    ensures { result ≡ first_named around.now.names.now name.now (messages around.now.scope.now (bindings bound.now)) }
{
    match bound_message(around.names, bound, name) {
        Some(sym) => Some(sym),
        None => message_in(around.names, around.scope.messages.as_slice(), name),
    }
}

/// A message, by its name.
#[tactic(auto, using(crate::proofs::NameLemmas::message_names))]
pub(crate) fn message(around: &Around, bound: &Bound, tree: &Tree) -> Result<u32, FormFault>
    ensures ok { IfOk result (λ m. ReadsMessage around.now.names.now around.now.scope.now around.now.inst.now (bindings bound.now) tree.now m) }
    ensures err { IfErr result (λ e. IsFault (fault tree.now (names_stage around.now.names.now around.now.scope.now around.now.inst.now (bindings bound.now)) Position.Message) e) }
{
    match tree {
        Tree::Sym { name, place } => {
            if !is_name(name) {
                return Err(FormFault::At {
                    rule: 10,
                    place: *place,
                });
            }
            match message_named(around, bound, name) {
                Some(sym) => Ok(sym),
                None => Err(FormFault::At {
                    rule: 11,
                    place: *place,
                }),
            }
        }
        Tree::Num { place, .. } => Err(FormFault::At {
            rule: 10,
            place: *place,
        }),
        Tree::List { place, .. } => Err(FormFault::At {
            rule: 10,
            place: *place,
        }),
    }
}

fn is_own_label(around: &Around, name: &Name) -> bool
    ensures { result ≡ (is_some around.now.scope.now.own && bytes_eq name.now (codes "self")) }
{
    around.scope.own.is_some() && is(name, b"self")
}

/// The label with this text.
#[tactic(auto, using(crate::proofs::LabelLemmas::named))]
fn label_named(around: &Around, name: &Name) -> Option<Lab>
    requires { IsFormed around.now.scope.now around.now.inst.now }
    ensures found { IfSome result (λ lab. IsLabel around.now.names.now around.now.scope.now around.now.inst.now name.now lab) }
    ensures none { IfNone result (look_up name.now (labels_of around.now.names.now around.now.scope.now around.now.inst.now) ≡ None) }
{
    if is_own_label(around, name) {
        return Some(Lab::Own);
    }
    match place_in(around.names, around.scope.labels.as_slice(), name) {
        Some(place) => Some(Lab::At(place)),
        None => None,
    }
}

/// A label, by its name.
#[tactic(auto, using(crate::proofs::LabelLemmas::labels))]
pub(crate) fn label(around: &Around, bound: &Bound, tree: &Tree) -> Result<Lab, FormFault>
    requires { IsFormed around.now.scope.now around.now.inst.now }
    ensures ok { IfOk result (λ lab. ReadsLabel around.now.names.now around.now.scope.now around.now.inst.now (bindings bound.now) tree.now lab) }
    ensures err { IfErr result (λ e. IsFault (fault tree.now (names_stage around.now.names.now around.now.scope.now around.now.inst.now (bindings bound.now)) Position.Label) e) }
{
    match tree {
        Tree::Sym { name, place } => {
            if !is_name(name) {
                return Err(FormFault::At {
                    rule: 10,
                    place: *place,
                });
            }
            match label_named(around, name) {
                Some(lab) => Ok(lab),
                None => Err(FormFault::At {
                    rule: 11,
                    place: *place,
                }),
            }
        }
        Tree::Num { place, .. } => Err(FormFault::At {
            rule: 10,
            place: *place,
        }),
        Tree::List { place, .. } => Err(FormFault::At {
            rule: 10,
            place: *place,
        }),
    }
}

/// The number of a label's protocol.
pub(crate) fn protocol_number(around: &Around, lab: Lab) -> Option<u8>
    ensures { result ≡ protocol_of around.now.names.now around.now.scope.now around.now.inst.now lab }
{
    match lab {
        Lab::Own => around.scope.own,
        Lab::At(label) => around.inst.of.get(label as usize).copied(),
    }
}

/// A protocol's field with this text, and whether it is a row.
fn field_of(around: &Around, protocol: Option<u8>, name: &Name) -> Option<(u8, bool)>
    requires { IsFormed around.now.scope.now around.now.inst.now }
    ensures { result ≡ field_named around.now.names.now around.now.inst.now protocol name.now }
{
    match protocol {
        None => None,
        Some(number) => match around.inst.protocols.get(number as usize) {
            None => None,
            Some(protocol) => field_in(around.names, protocol.fields.as_slice(), name),
        },
    }
}

/// The number of the protocol of the label that the tree names.
fn protocol_in(around: &Around, bound: &Bound, tree: &Tree) -> Option<u8>
    requires { IsFormed around.now.scope.now around.now.inst.now }
    ensures { result ≡ protocol_named (context_of around.now.names.now around.now.scope.now around.now.inst.now (bindings bound.now)) tree.now }
{
    match tree {
        Tree::Sym { name, .. } => match label_named(around, name) {
            Some(lab) => protocol_number(around, lab),
            None => None,
        },
        Tree::Num { .. } => None,
        Tree::List { .. } => None,
    }
}

/// Whether the field that a tree names is a row, where both are known.
#[tactic(auto, using(crate::proofs::FieldLemmas::rows))]
pub(crate) fn field_row(around: &Around, bound: &Bound, label: &Tree, field: &Tree) -> Option<bool>
    requires { IsFormed around.now.scope.now around.now.inst.now }
    ensures { result ≡ row_at (context_of around.now.names.now around.now.scope.now around.now.inst.now (bindings bound.now)) label.now field.now }
{
    match field {
        Tree::Sym { name, .. } => {
            match field_of(around, protocol_in(around, bound, label), name) {
                Some((_, row)) => Some(row),
                None => None,
            }
        }
        Tree::Num { .. } => None,
        Tree::List { .. } => None,
    }
}

/// A field of a label, by its name.
#[tactic(auto, using(crate::proofs::FieldLemmas::fields))]
pub(crate) fn field(around: &Around, bound: &Bound, lab: Lab, tree: &Tree) -> Result<u8, FormFault>
    requires { IsFormed around.now.scope.now around.now.inst.now }
    ensures ok { IfOk result (λ f. ReadsField around.now.names.now around.now.scope.now around.now.inst.now (bindings bound.now) lab tree.now f) }
    ensures err { IfErr result (λ e. IsFault (fault tree.now (label_stage around.now.names.now around.now.scope.now around.now.inst.now (bindings bound.now) (protocol_of around.now.names.now around.now.scope.now around.now.inst.now lab)) Position.Field) e) }
{
    match tree {
        Tree::Sym { name, place } => {
            if !is_name(name) {
                return Err(FormFault::At {
                    rule: 10,
                    place: *place,
                });
            }
            match field_of(around, protocol_number(around, lab), name) {
                Some((field, _)) => Ok(field),
                None => Err(FormFault::At {
                    rule: 11,
                    place: *place,
                }),
            }
        }
        Tree::Num { place, .. } => Err(FormFault::At {
            rule: 10,
            place: *place,
        }),
        Tree::List { place, .. } => Err(FormFault::At {
            rule: 10,
            place: *place,
        }),
    }
}

/// Whether the tree names a row of the label, where both are known.
pub(crate) fn is_row(around: &Around, bound: &Bound, label: &Tree, field: &Tree) -> bool
    requires { IsFormed around.now.scope.now around.now.inst.now }
    ensures { result ≡ unwrap_or (row_at (context_of around.now.names.now around.now.scope.now around.now.inst.now (bindings bound.now)) label.now field.now) false }
{
    match field_row(around, bound, label, field) {
        Some(row) => row,
        None => false,
    }
}

/// Whether the tree names a field of the label that is no row, where both are known.
pub(crate) fn is_flat(around: &Around, bound: &Bound, label: &Tree, field: &Tree) -> bool
    requires { IsFormed around.now.scope.now around.now.inst.now }
    ensures { result ≡ not (unwrap_or (row_at (context_of around.now.names.now around.now.scope.now around.now.inst.now (bindings bound.now)) label.now field.now) true) }
{
    match field_row(around, bound, label, field) {
        Some(row) => !row,
        None => false,
    }
}

/// A protocol's tag with this text.
fn tag_of(around: &Around, protocol: Option<u8>, name: &Name) -> Option<u8>
    requires { IsFormed around.now.scope.now around.now.inst.now }
    ensures { result ≡ tag_named around.now.names.now around.now.inst.now protocol name.now }
{
    match protocol {
        None => None,
        Some(number) => match around.inst.protocols.get(number as usize) {
            None => None,
            Some(protocol) => tag_in(around.names, protocol.tags.as_slice(), name),
        },
    }
}

/// A tag of a label, by its name.
#[tactic(auto, using(crate::proofs::TagLemmas::tags))]
pub(crate) fn tag(around: &Around, bound: &Bound, lab: Lab, tree: &Tree) -> Result<u8, FormFault>
    requires { IsFormed around.now.scope.now around.now.inst.now }
    ensures ok { IfOk result (λ t. ReadsTag around.now.names.now around.now.scope.now around.now.inst.now (bindings bound.now) lab tree.now t) }
    ensures err { IfErr result (λ e. IsFault (fault tree.now (label_stage around.now.names.now around.now.scope.now around.now.inst.now (bindings bound.now) (protocol_of around.now.names.now around.now.scope.now around.now.inst.now lab)) Position.Tag) e) }
{
    match tree {
        Tree::Sym { name, place } => {
            if !is_name(name) {
                return Err(FormFault::At {
                    rule: 10,
                    place: *place,
                });
            }
            match tag_of(around, protocol_number(around, lab), name) {
                Some(tag) => Ok(tag),
                None => Err(FormFault::At {
                    rule: 11,
                    place: *place,
                }),
            }
        }
        Tree::Num { place, .. } => Err(FormFault::At {
            rule: 10,
            place: *place,
        }),
        Tree::List { place, .. } => Err(FormFault::At {
            rule: 10,
            place: *place,
        }),
    }
}
