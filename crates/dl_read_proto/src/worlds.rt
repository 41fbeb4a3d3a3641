//! Hooks, worlds and invariants.

use crate::around::{
    Around, label_position, meaning_of, numbers, parts_behind, parts_of, tag, world_position,
};
use crate::formulas::formula;
use crate::meanings::Meaning;
use crate::results::{both, finished, found, lost};
use dl_model::{Hook, Invariant, World};
use dl_term::Lab;
use dl_tree::Tree;
use dl_world::compose;
use sqlite_items::Items;
use std::alloc::{AllocError, Global};

/// The core, the client and the tag of a hook.
#[derive(Clone, Copy)]
struct Ends {
    core: u8,
    client: u8,
    tag: u8,
}

fn hook_ends(around: &Around, core: &Tree, client: &Tree, name: &Tree) -> Result<Ends, AllocError> {
    let core = label_position(around, core)?;
    let client = label_position(around, client)?;
    let tag = tag(around, Lab::At(client), name)?;
    Ok(Ends { core, client, tag })
}

/// The hook with this name, by the parts behind it.
pub(crate) fn hook(
    alloc: Global,
    around: &Around,
    sym: u32,
    parts: &[Tree],
) -> Result<Hook, AllocError> {
    let [core, client, name, args, body] = parts else {
        return lost();
    };
    let ends = hook_ends(around, core, client, name)?;
    let args = numbers(alloc, around.names, parts_of(args));
    match both(args, formula(alloc, around, body)) {
        Ok((args, formula)) => Ok(Hook {
            sym,
            core: ends.core,
            client: ends.client,
            tag: ends.tag,
            args,
            formula,
        }),
        Err(error) => Err(error),
    }
}

/// The world with this name, by the parts behind it: its labels and its hooks, or the two earlier worlds that it is
/// composed of.
pub(crate) fn world(
    alloc: Global,
    around: &Around,
    worlds: &[World],
    sym: u32,
    parts: &[Tree],
) -> Result<World, AllocError> {
    match parts {
        [composition] => composed(alloc, around, worlds, sym, parts_behind(composition)),
        [labels, hooks] => {
            let labels = all_labels(alloc, around, parts_behind(labels));
            match both(labels, all_hooks(alloc, around, parts_behind(hooks))) {
                Ok((labels, hooks)) => Ok(World { sym, labels, hooks }),
                Err(error) => Err(error),
            }
        }
        _ => lost(),
    }
}

fn composed(
    alloc: Global,
    around: &Around,
    worlds: &[World],
    sym: u32,
    parts: &[Tree],
) -> Result<World, AllocError> {
    let [first, second] = parts else {
        return lost();
    };
    let first = usize::from(world_position(around, first)?);
    let second = usize::from(world_position(around, second)?);
    let first = found(worlds.get(first))?;
    let second = found(worlds.get(second))?;
    compose(alloc, first, second, sym)
}

fn all_labels(alloc: Global, around: &Around, trees: &[Tree]) -> Result<Items<u8>, AllocError> {
    let mut labels = Items::new(alloc);
    let done = add_labels(around, trees, &mut labels);
    finished(labels, done)
}

fn add_labels(around: &Around, trees: &[Tree], labels: &mut Items<u8>) -> Result<(), AllocError> {
    for tree in trees {
        labels.push(label_position(around, tree)?)?;
    }
    Ok(())
}

fn all_hooks(alloc: Global, around: &Around, trees: &[Tree]) -> Result<Items<u8>, AllocError> {
    let mut hooks = Items::new(alloc);
    let done = add_hooks(around, trees, &mut hooks);
    finished(hooks, done)
}

fn add_hooks(around: &Around, trees: &[Tree], hooks: &mut Items<u8>) -> Result<(), AllocError> {
    for tree in trees {
        hooks.push(hook_position(around, tree)?)?;
    }
    Ok(())
}

fn hook_position(around: &Around, tree: &Tree) -> Result<u8, AllocError> {
    match meaning_of(around, tree)? {
        Meaning::Hook(at) => Ok(at),
        _ => lost(),
    }
}

/// The invariant with this name, by the parts behind it: its world and its formula.
pub(crate) fn invariant(
    alloc: Global,
    around: &Around,
    sym: u32,
    parts: &[Tree],
) -> Result<Invariant, AllocError> {
    let [world, body] = parts else {
        return lost();
    };
    let world = world_position(around, world)?;
    match formula(alloc, around, body) {
        Ok(formula) => Ok(Invariant {
            sym,
            world,
            formula,
        }),
        Err(error) => Err(error),
    }
}
