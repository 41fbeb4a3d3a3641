//! Files.

ghost use Rattle.std.specs.Prelude.{◌≡◌, IfOk};

use crate::proofs::proof;
use dl_file::{File, Item, ItemKind, Proof};
use dl_forms::Names;
use dl_model::Decls;
use dl_notation::{ListRole, number_list};
use dl_read_prog::build_program;
use dl_read_proto::{
    Built, add, both, build_declaration, build_nodes, finished, lost, parts_behind, word_of,
};
use dl_tree::{Name, Tree};
use sqlite_items::Items;
use std::alloc::{AllocError, Global};

/// What is built of a file, but for its tree.
#[derive(Drop)]
struct Parts {
    names: Items<Name>,
    decls: Decls,
    proofs: Items<Proof>,
    items: Items<Item>,
}

/// The items of a file, as far as they were built.
#[derive(Drop)]
struct Reading {
    built: Built,
    proofs: Items<Proof>,
    items: Items<Item>,
}

/// The file that a tree is, where the tree has no fault of form, name or sort, and its names with their numbers and
/// its sorts. Nothing is marked in the names.
///
/// The file keeps the tree. Nothing else is promised of it: it is compared with the tree where it matters. The one error is
/// want of memory. A tree with such a fault is answered so too, or else by some file.
pub fn build_file(alloc: Global, tree: Tree) -> Result<(Names, File), AllocError>
    ensures { IfOk result (λ built. built.1.tree ≡ tree) }
{
    match numbered(alloc, &tree) {
        Ok(names) => named_file(alloc, names, tree),
        Err(error) => {
            drop(tree);
            Err(error)
        }
    }
}

/// The file of a tree whose names have their numbers.
fn named_file(alloc: Global, mut names: Names, tree: Tree) -> Result<(Names, File), AllocError>
    ensures { IfOk result (λ built. built.1.tree ≡ tree) }
{
    match file_parts(alloc, &mut names, &tree) {
        Ok(parts) => Ok((names, whole(parts, tree))),
        Err(error) => {
            drop(names);
            drop(tree);
            Err(error)
        }
    }
}

fn whole(parts: Parts, tree: Tree) -> File
    ensures { result.tree ≡ tree }
{
    let Parts {
        names,
        decls,
        proofs,
        items,
    } = parts;
    File {
        names,
        decls,
        proofs,
        items,
        tree,
    }
}

/// The numbers of all names of a file.
fn numbered(alloc: Global, tree: &Tree) -> Result<Names, AllocError> {
    let mut names = Names::make(alloc)?;
    let done = number_list(alloc, &mut names, ListRole::File, tree);
    finished(names, done)
}

fn file_parts(alloc: Global, names: &mut Names, tree: &Tree) -> Result<Parts, AllocError> {
    let texts = texts(alloc, &*names);
    match both(texts, all_items(alloc, names, parts_behind(tree))) {
        Ok((names, reading)) => {
            let Reading {
                built,
                proofs,
                items,
            } = reading;
            Ok(Parts {
                names,
                decls: built.into_decls(),
                proofs,
                items,
            })
        }
        Err(error) => Err(error),
    }
}

/// The text of each name, by its number.
fn texts(alloc: Global, names: &Names) -> Result<Items<Name>, AllocError> {
    let mut texts = Items::new(alloc);
    let done = add_texts(alloc, names, &mut texts);
    finished(texts, done)
}

fn add_texts(alloc: Global, names: &Names, texts: &mut Items<Name>) -> Result<(), AllocError> {
    for sym in 0..u32::MAX {
        match names.text(sym) {
            Some(text) => add(texts, text.copy(alloc))?,
            None => return Ok(()),
        }
    }
    Ok(())
}

/// The items behind the version and the nodes.
fn all_items(alloc: Global, names: &mut Names, parts: &[Tree]) -> Result<Reading, AllocError> {
    let [_, nodes, trees @ ..] = parts else {
        return lost();
    };
    match build_nodes(alloc, &*names, nodes) {
        Ok(built) => {
            let mut reading = Reading {
                built,
                proofs: Items::new(alloc),
                items: Items::new(alloc),
            };
            let done = read_items(alloc, names, trees, &mut reading);
            finished(reading, done)
        }
        Err(error) => Err(error),
    }
}

fn read_items(
    alloc: Global,
    names: &mut Names,
    trees: &[Tree],
    reading: &mut Reading,
) -> Result<(), AllocError> {
    for tree in trees {
        read_item(alloc, names, tree, reading)?;
    }
    Ok(())
}

fn read_item(
    alloc: Global,
    names: &mut Names,
    tree: &Tree,
    reading: &mut Reading,
) -> Result<(), AllocError> {
    let kind = kind_of(word_of(tree));
    let at = count_of(kind, &*names, reading)?;
    reading.items.push(Item {
        kind,
        at,
        place: tree.place(),
    })?;
    match kind {
        ItemKind::Proof => {
            let proof = proof(alloc, &*names, &reading.built, tree);
            add(&mut reading.proofs, proof)
        }
        ItemKind::Procedure | ItemKind::Deploy => {
            build_program(alloc, &*names, &mut reading.built, tree)
        }
        _ => build_declaration(alloc, names, &mut reading.built, tree),
    }
}

fn kind_of(word: &str) -> ItemKind {
    if word == "sort" {
        ItemKind::Sort
    } else if word == "protocol" {
        ItemKind::Protocol
    } else if word == "label" {
        ItemKind::Label
    } else if word == "hook" {
        ItemKind::Hook
    } else if word == "world" {
        ItemKind::World
    } else if word == "invariant" {
        ItemKind::Invariant
    } else if word == "proc" {
        ItemKind::Procedure
    } else if word == "deploy" {
        ItemKind::Deploy
    } else {
        ItemKind::Proof
    }
}

/// How many items of a kind there are so far.
fn count_of(kind: ItemKind, names: &Names, reading: &Reading) -> Result<u32, AllocError> {
    let decls = &reading.built.decls;
    let count = match kind {
        ItemKind::Sort => names.sorts().len(),
        ItemKind::Protocol => decls.inst.protocols.len(),
        ItemKind::Label => decls.labels.len(),
        ItemKind::Hook => decls.hooks.len(),
        ItemKind::World => decls.worlds.len(),
        ItemKind::Invariant => decls.invariants.len(),
        ItemKind::Procedure => decls.procs.len(),
        ItemKind::Deploy => 0,
        ItemKind::Proof => reading.proofs.len(),
    };
    match u32::try_from(count) {
        Ok(count) => Ok(count),
        Err(_) => lost(),
    }
}
