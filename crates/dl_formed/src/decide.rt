//! Whether the declarations of a file are formed.

ghost use Rattle.std.specs.Prelude.{◌≡◌, ◌↔◌, true, length, IfOk};
ghost use Rattle.std.specs.List.{list_all};
ghost use Rattle.dl_model.specs.Formed.{IsFormed, declared_names};
ghost use Rattle.dl_formed.specs.Decided.{are_names, protocol_is_formed, instances_are_formed, hook_is_formed, world_is_formed, invariant_is_formed};
ghost use Rattle.dl_formed.specs.Whole.{has_few_items, items_are_formed, file_is_formed};

use crate::apart::is_apart;
use crate::collect::names_of_file;
use crate::names::are_names;
use crate::points::are_few;
use crate::programs::procs_are_formed;
use crate::worlds::{are_below, hook_is_formed, invariant_is_formed, world_is_formed};
use crate::{deployment, protocols};
use dl_model::{Decls, Hook, Instances, Invariant, Protocol, World};
use std::alloc::{AllocError, Global};

// The most nodes and labels of a file, and the most items of each other kind.
const MOST_NODES: u32 = 16;

const MOST_LABELS: usize = 16;

const MOST_ITEMS: usize = 64;

/// Whether declarations are formed, as the model defines it: every number names something, lists are as long as
/// declared, names are known and of their kinds, numbers are in their sorts, no quantifier binds the name of another
/// variable of the file, and no count is past its limit.
///
/// The one refusal is want of memory. It takes a byte for each number up to the greatest one of a variable's name, and
/// time that is linear in the file's size times the nesting of its formulas.
pub fn is_formed(alloc: Global, decls: &Decls) -> Result<bool, AllocError>
    ensures { IfOk result (λ formed. (formed ≡ true) ↔ IsFormed decls.now) }
{
    file_is_formed(alloc, decls)
}

fn file_is_formed(alloc: Global, decls: &Decls) -> Result<bool, AllocError>
    ensures { IfOk result (λ formed. formed ≡ file_is_formed decls.now) }
{
    if !has_few_items(decls) {
        return Ok(false);
    }
    if decls.labels.len() != decls.inst.of.len() {
        return Ok(false);
    }
    if !items_are_formed(alloc, decls)? {
        return Ok(false);
    }
    if !names_are_declared_once(alloc, decls)? {
        return Ok(false);
    }
    is_apart(alloc, decls)
}

// Whether there is a node, and no count is past its limit.
fn has_few_items(decls: &Decls) -> bool
    ensures { result ≡ has_few_items decls.now }
{
    1 <= decls.inst.nodes
        && decls.inst.nodes <= MOST_NODES
        && decls.inst.of.len() <= MOST_LABELS
        && decls.inst.protocols.len() <= MOST_ITEMS
        && decls.hooks.len() <= MOST_ITEMS
        && decls.worlds.len() <= MOST_ITEMS
        && decls.invariants.len() <= MOST_ITEMS
        && decls.procs.len() <= MOST_ITEMS
        && are_few(decls.procs.as_slice())
}

fn items_are_formed(alloc: Global, decls: &Decls) -> Result<bool, AllocError>
    ensures { IfOk result (λ formed. formed ≡ items_are_formed decls.now) }
{
    if !instances_are_formed(alloc, &decls.inst)? {
        return Ok(false);
    }
    if !hooks_are_formed(alloc, decls.hooks.as_slice(), &decls.inst)? {
        return Ok(false);
    }
    let labels = decls.inst.of.len();
    let hooks = decls.hooks.len();
    if !worlds_are_formed(alloc, decls.worlds.as_slice(), labels, hooks)? {
        return Ok(false);
    }
    let worlds = decls.worlds.len();
    if !invariants_are_formed(decls.invariants.as_slice(), &decls.inst, worlds) {
        return Ok(false);
    }
    if !procs_are_formed(alloc, decls.procs.as_slice(), decls)? {
        return Ok(false);
    }
    deployment::is_formed(alloc, decls)
}

fn instances_are_formed(alloc: Global, inst: &Instances) -> Result<bool, AllocError>
    ensures { IfOk result (λ formed. formed ≡ instances_are_formed inst.now) }
{
    if !protocols_are_formed(alloc, inst.protocols.as_slice(), inst.nodes)? {
        return Ok(false);
    }
    Ok(are_below(inst.of.as_slice(), inst.protocols.len()))
}

fn protocols_are_formed(
    alloc: Global,
    protocols: &[Protocol],
    nodes: u32,
) -> Result<bool, AllocError>
    ensures { IfOk result (λ formed. formed ≡ list_all (protocol_is_formed nodes) protocols.now) }
{
    for protocol in protocols {
        if !protocols::is_formed(alloc, protocol, nodes)? {
            return Ok(false);
        }
    }
    Ok(true)
}

fn hooks_are_formed(alloc: Global, hooks: &[Hook], inst: &Instances) -> Result<bool, AllocError>
    ensures { IfOk result (λ formed. formed ≡ list_all (hook_is_formed inst.now) hooks.now) }
{
    for hook in hooks {
        if !hook_is_formed(alloc, hook, inst)? {
            return Ok(false);
        }
    }
    Ok(true)
}

fn worlds_are_formed(
    alloc: Global,
    worlds: &[World],
    labels: usize,
    hooks: usize,
) -> Result<bool, AllocError>
    ensures { IfOk result (λ formed. formed ≡ list_all (world_is_formed labels hooks) worlds.now) }
{
    for world in worlds {
        if !world_is_formed(alloc, world, labels, hooks)? {
            return Ok(false);
        }
    }
    Ok(true)
}

fn invariants_are_formed(invariants: &[Invariant], inst: &Instances, worlds: usize) -> bool
    ensures { result ≡ list_all (invariant_is_formed inst.now worlds) invariants.now }
{
    for invariant in invariants {
        if !invariant_is_formed(invariant, inst, worlds) {
            return false;
        }
    }
    true
}

// Whether each name that the file declares is one that it may declare, and stands once.
fn names_are_declared_once(alloc: Global, decls: &Decls) -> Result<bool, AllocError>
    ensures { IfOk result (λ once. once ≡ are_names (declared_names decls.now)) }
{
    let names = names_of_file(alloc, decls)?;
    let once = are_names(names.as_slice());
    drop(names);
    Ok(once)
}
