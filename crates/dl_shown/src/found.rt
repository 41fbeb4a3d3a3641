//! The names of what numbers name.

ghost use Rattle.std.specs.Prelude.{◌≡◌, slice_get, IfOk};
ghost use Rattle.std.specs.Option.{option_copied};
ghost use Rattle.dl_model.specs.Scopes.{protocol_found as found_protocol};
ghost use Rattle.dl_shown.specs.Shown.{protocol_of_label as label_protocol, tag_in as tag_found, field_in as field_found, label_of, protocol_name as name_of_protocol, tag_name as name_of_tag, field_name as name_of_field, hook_name, world_name, node_name, proc_name};

use crate::pieces::{name, nothing};
use dl_forms::Names;
use dl_model::{Decls, FieldDecl, Instances, Protocol, Tag};
use dl_tree::Tree;
use std::alloc::{AllocError, Global};

/// The number of the first name of a file, which is that of its first node.
const FIRST_NAME: u32 = 18;

fn numbered_protocol(inst: &Instances, number: Option<u8>) -> Option<&Protocol>
    ensures { option_copied result ≡ found_protocol inst.now number }
{
    match number {
        Some(number) => inst.protocols.get(usize::from(number)),
        None => None,
    }
}

/// The protocol of a label.
pub(crate) fn protocol_of_label(inst: &Instances, label: u8) -> Option<&Protocol>
    ensures { option_copied result ≡ label_protocol inst.now label }
{
    numbered_protocol(inst, inst.of.get(usize::from(label)).copied())
}

pub(crate) fn tag_in(protocol: Option<&Protocol>, tag: u8) -> Option<&Tag>
    ensures { option_copied result ≡ tag_found (option_copied protocol.entry) tag }
{
    match protocol {
        Some(protocol) => protocol.tags.get(usize::from(tag)),
        None => None,
    }
}

pub(crate) fn field_in(protocol: Option<&Protocol>, field: u8) -> Option<&FieldDecl>
    ensures { option_copied result ≡ field_found (option_copied protocol.entry) field }
{
    match protocol {
        Some(protocol) => protocol.fields.get(usize::from(field)),
        None => None,
    }
}

pub(crate) fn label(alloc: Global, names: &Names, decls: &Decls, at: u8) -> Result<Tree, AllocError>
    ensures { IfOk result (λ tree. tree ≡ label_of names.now decls.now at) }
{
    match decls.labels.get(usize::from(at)) {
        Some(sym) => name(alloc, names, *sym),
        None => nothing(alloc),
    }
}

pub(crate) fn protocol_name(
    alloc: Global,
    names: &Names,
    decls: &Decls,
    protocol: Option<&Protocol>,
) -> Result<Tree, AllocError>
    ensures { IfOk result (λ tree. tree ≡ name_of_protocol names.now decls.now (option_copied protocol.entry)) }
{
    match protocol {
        Some(protocol) => name(alloc, names, protocol.sym),
        None => nothing(alloc),
    }
}

pub(crate) fn tag_name(
    alloc: Global,
    names: &Names,
    decls: &Decls,
    tag: Option<&Tag>,
) -> Result<Tree, AllocError>
    ensures { IfOk result (λ tree. tree ≡ name_of_tag names.now decls.now (option_copied tag.entry)) }
{
    match tag {
        Some(tag) => name(alloc, names, tag.sym),
        None => nothing(alloc),
    }
}

pub(crate) fn field_name(
    alloc: Global,
    names: &Names,
    decls: &Decls,
    field: Option<&FieldDecl>,
) -> Result<Tree, AllocError>
    ensures { IfOk result (λ tree. tree ≡ name_of_field names.now decls.now (option_copied field.entry)) }
{
    match field {
        Some(field) => name(alloc, names, field.sym),
        None => nothing(alloc),
    }
}

pub(crate) fn hook(alloc: Global, names: &Names, decls: &Decls, at: u8) -> Result<Tree, AllocError>
    ensures { IfOk result (λ tree. tree ≡ hook_name names.now decls.now at) }
{
    match decls.hooks.get(usize::from(at)) {
        Some(hook) => name(alloc, names, hook.sym),
        None => nothing(alloc),
    }
}

pub(crate) fn world(alloc: Global, names: &Names, decls: &Decls, at: u8) -> Result<Tree, AllocError>
    ensures { IfOk result (λ tree. tree ≡ world_name names.now decls.now at) }
{
    match decls.worlds.get(usize::from(at)) {
        Some(world) => name(alloc, names, world.sym),
        None => nothing(alloc),
    }
}

pub(crate) fn procedure(
    alloc: Global,
    names: &Names,
    decls: &Decls,
    at: u8,
) -> Result<Tree, AllocError>
    ensures { IfOk result (λ tree. tree ≡ proc_name names.now decls.now at) }
{
    match decls.procs.get(usize::from(at)) {
        Some(proc) => name(alloc, names, proc.sym),
        None => nothing(alloc),
    }
}

/// The name of a node. A node past 32 bits is answered as want of memory: no file has so many.
pub(crate) fn node(alloc: Global, names: &Names, decls: &Decls, at: u32) -> Result<Tree, AllocError>
    ensures { IfOk result (λ tree. tree ≡ node_name names.now decls.now at) }
{
    match FIRST_NAME.checked_add(at) {
        Some(sym) => name(alloc, names, sym),
        None => Err(AllocError),
    }
}
