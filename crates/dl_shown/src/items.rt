//! Items and whole files as trees without places.

ghost use Rattle.std.specs.Prelude.{◌≡◌, ◌≤◌, ◌++◌, ◌∷◌, [], map, length, suc, pos, codes, slice_get, IfOk, OnOk};
ghost use Rattle.dl_model.specs.Words.{first_name};
ghost use Rattle.dl_file.specs.declared.file.ItemKind.TheVariants.{Label};
ghost use Rattle.dl_forms.specs.Show.{form};
ghost use Rattle.dl_shown.specs.Shown.{shown_if, sort_of, nodes_from, protocol_of, hook_of, world_of, invariant_of, deploy_of};
ghost use Rattle.dl_shown.specs.Programs.{proc_of};
ghost use Rattle.dl_shown.specs.Scripts.{proof_of};
ghost use Rattle.dl_shown.specs.Whole.{declaration_of, item_of, shown_file};

use crate::declarations::{deployment, held, hook, instance, protocol, sort, world};
use crate::found::node;
use crate::pieces::{begin, count, list, nothing};
use crate::programs::procedure;
use crate::scripts::proof;
use dl_file::{File, Item, ItemKind, Proof};
use dl_forms::Names;
use dl_model::Decls;
use dl_tree::Tree;
use sqlite_items::Items;
use std::alloc::{AllocError, Global};

fn sort_at(alloc: Global, names: &Names, at: usize) -> Result<Tree, AllocError>
    ensures { IfOk result (λ tree. tree ≡ shown_if (sort_of names.now) (slice_get names.now.sorts at)) }
{
    match names.sorts().get(at) {
        Some(declared) => sort(alloc, names, declared),
        None => nothing(alloc),
    }
}

/// A protocol past 8 bits is answered as want of memory: no file has so many.
fn protocol_at(alloc: Global, names: &Names, decls: &Decls, at: u32) -> Result<Tree, AllocError>
    ensures { IfOk result (λ tree. tree ≡ shown_if (protocol_of names.now decls.now at) (slice_get decls.now.inst.protocols at)) }
{
    let Ok(number) = u8::try_from(at) else {
        return Err(AllocError);
    };
    match decls.inst.protocols.get(at as usize) {
        Some(declared) => protocol(alloc, names, decls, number, declared),
        None => nothing(alloc),
    }
}

/// A label past 8 bits is answered as want of memory: no file has so many.
fn label_at(alloc: Global, names: &Names, decls: &Decls, at: u32) -> Result<Tree, AllocError>
    ensures { IfOk result (λ tree. tree ≡ declaration_of names.now decls.now Label at) }
{
    match u8::try_from(at) {
        Ok(number) => instance(alloc, names, decls, number),
        Err(_) => Err(AllocError),
    }
}

fn hook_at(alloc: Global, names: &Names, decls: &Decls, at: usize) -> Result<Tree, AllocError>
    ensures { IfOk result (λ tree. tree ≡ shown_if (hook_of names.now decls.now) (slice_get decls.now.hooks at)) }
{
    match decls.hooks.get(at) {
        Some(declared) => hook(alloc, names, decls, declared),
        None => nothing(alloc),
    }
}

fn world_at(alloc: Global, names: &Names, decls: &Decls, at: usize) -> Result<Tree, AllocError>
    ensures { IfOk result (λ tree. tree ≡ shown_if (world_of names.now decls.now) (slice_get decls.now.worlds at)) }
{
    match decls.worlds.get(at) {
        Some(declared) => world(alloc, names, decls, declared),
        None => nothing(alloc),
    }
}

fn invariant_at(alloc: Global, names: &Names, decls: &Decls, at: usize) -> Result<Tree, AllocError>
    ensures { IfOk result (λ tree. tree ≡ shown_if (invariant_of names.now decls.now) (slice_get decls.now.invariants at)) }
{
    match decls.invariants.get(at) {
        Some(declared) => held(alloc, names, decls, declared),
        None => nothing(alloc),
    }
}

fn procedure_at(alloc: Global, names: &Names, decls: &Decls, at: usize) -> Result<Tree, AllocError>
    ensures { IfOk result (λ tree. tree ≡ shown_if (proc_of names.now decls.now) (slice_get decls.now.procs at)) }
{
    match decls.procs.get(at) {
        Some(declared) => procedure(alloc, names, decls, declared),
        None => nothing(alloc),
    }
}

fn deployed(alloc: Global, names: &Names, decls: &Decls) -> Result<Tree, AllocError>
    ensures { IfOk result (λ tree. tree ≡ shown_if (deploy_of names.now decls.now) decls.now.deploy) }
{
    match &decls.deploy {
        Some(declared) => deployment(alloc, names, decls, declared),
        None => nothing(alloc),
    }
}

/// The item with this number, from 0, among those of its kind, as a tree without places.
///
/// A number that names nothing is a symbol without text, and so is a proof, which stands in no `Decls`. Its only error is
/// want of memory.
pub fn show_item(
    alloc: Global,
    names: &Names,
    decls: &Decls,
    kind: ItemKind,
    at: u32,
) -> Result<Tree, AllocError>
    ensures { IfOk result (λ tree. tree ≡ declaration_of names.now decls.now kind at) }
{
    match kind {
        ItemKind::Sort => sort_at(alloc, names, at as usize),
        ItemKind::Protocol => protocol_at(alloc, names, decls, at),
        ItemKind::Label => label_at(alloc, names, decls, at),
        ItemKind::Hook => hook_at(alloc, names, decls, at as usize),
        ItemKind::World => world_at(alloc, names, decls, at as usize),
        ItemKind::Invariant => invariant_at(alloc, names, decls, at as usize),
        ItemKind::Procedure => procedure_at(alloc, names, decls, at as usize),
        ItemKind::Deploy => deployed(alloc, names, decls),
        ItemKind::Proof => nothing(alloc),
    }
}

/// A proof as a tree without places. Its only error is want of memory.
pub fn show_proof(
    alloc: Global,
    names: &Names,
    decls: &Decls,
    shown: &Proof,
) -> Result<Tree, AllocError>
    ensures { IfOk result (λ tree. tree ≡ proof_of names.now decls.now shown.now) }
{
    proof(alloc, names, decls, shown)
}

fn proof_at(alloc: Global, names: &Names, file: &File, at: usize) -> Result<Tree, AllocError>
    ensures { IfOk result (λ tree. tree ≡ shown_if (proof_of names.now file.now.decls) (slice_get file.now.proofs at)) }
{
    match file.proofs.get(at) {
        Some(declared) => proof(alloc, names, &file.decls, declared),
        None => nothing(alloc),
    }
}

/// An item of a file as a tree without places. Its only error is want of memory.
pub fn show_item_of(
    alloc: Global,
    names: &Names,
    file: &File,
    item: &Item,
) -> Result<Tree, AllocError>
    ensures { IfOk result (λ tree. tree ≡ item_of names.now file.now item.now) }
{
    match item.kind {
        ItemKind::Proof => proof_at(alloc, names, file, item.at as usize),
        ItemKind::Sort => show_item(alloc, names, &file.decls, ItemKind::Sort, item.at),
        ItemKind::Protocol => show_item(alloc, names, &file.decls, ItemKind::Protocol, item.at),
        ItemKind::Label => show_item(alloc, names, &file.decls, ItemKind::Label, item.at),
        ItemKind::Hook => show_item(alloc, names, &file.decls, ItemKind::Hook, item.at),
        ItemKind::World => show_item(alloc, names, &file.decls, ItemKind::World, item.at),
        ItemKind::Invariant => show_item(alloc, names, &file.decls, ItemKind::Invariant, item.at),
        ItemKind::Procedure => show_item(alloc, names, &file.decls, ItemKind::Procedure, item.at),
        ItemKind::Deploy => show_item(alloc, names, &file.decls, ItemKind::Deploy, item.at),
    }
}

/// The list of the nodes as a tree without places. Its only error is want of memory, which a node past 32 bits is answered
/// as, too: no file has so many.
pub fn show_nodes(alloc: Global, names: &Names, decls: &Decls) -> Result<Tree, AllocError>
    ensures { IfOk result (λ tree. tree ≡ form (codes "nodes") (nodes_from names.now first_name decls.now.inst.nodes)) }
{
    let mut parts = begin(alloc, "nodes")?;
    for at in 0..decls.inst.nodes {
        parts.push(node(alloc, names, decls, at)?)?;
    }
    Ok(list(parts))
}

fn add_items(
    alloc: Global,
    names: &Names,
    file: &File,
    items: &[Item],
    parts: &mut Items<Tree>,
) -> Result<(), AllocError>
    ensures { OnOk result (parts.new ≡ parts.old ++ map (item_of names.now file.now) items.now) }
{
    for one in items {
        parts.push(show_item_of(alloc, names, file, one)?)?;
    }
    Ok(())
}

/// A file as a tree without places. The names have the texts of the file's names and the sorts that it declares. Its
/// only error is want of memory.
pub fn show_file(alloc: Global, names: &Names, file: &File) -> Result<Tree, AllocError>
    ensures { IfOk result (λ tree. tree ≡ shown_file names.now file.now) }
{
    let mut parts = begin(alloc, "disel")?;
    parts.push(count(1))?;
    parts.push(show_nodes(alloc, names, &file.decls)?)?;
    add_items(alloc, names, file, file.items.as_slice(), &mut parts)?;
    Ok(list(parts))
}
