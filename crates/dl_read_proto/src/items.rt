//! The items that declare something.

use crate::around::{integer, meaning_of, number_of, numbers, parts_behind, word_of};
use crate::built::Built;
use crate::meanings::{Meaning, Meanings};
use crate::protocols::protocol;
use crate::results::{add, lost, position};
use crate::worlds::{hook, invariant, world};
use dl_forms::{Names, SortDecl};
use dl_model::World;
use dl_term::Sort;
use dl_tree::Tree;
use sqlite_items::Items;
use std::alloc::{AllocError, Global};

/// Begins with the list of nodes. The names have their numbers. The one error is want of memory.
pub fn build_nodes(alloc: Global, names: &Names, tree: &Tree) -> Result<Built, AllocError> {
    let nodes = parts_behind(tree);
    let Ok(count) = u32::try_from(nodes.len()) else {
        return lost();
    };
    let mut meanings = Meanings::new(alloc, count)?;
    match declare_words(names, nodes, &mut meanings) {
        Ok(()) => Ok(Built::new(alloc, count, meanings)),
        Err(error) => {
            drop(meanings);
            Err(error)
        }
    }
}

/// Declares nodes, or the enumerators of a sort, whose values are 0, 1 and so on.
fn declare_words(names: &Names, trees: &[Tree], meanings: &mut Meanings) -> Result<(), AllocError> {
    for (at, tree) in trees.iter().enumerate() {
        let value = match i64::try_from(at) {
            Ok(value) => value,
            Err(_) => return lost(),
        };
        let sym = number_of(names, tree)?;
        meanings.declare(sym, Meaning::Word(value))?;
    }
    Ok(())
}

/// Adds what an item declares to what the items before it declared, and a sort to the names. The item is one of a sort,
/// a protocol, a label, a hook, a world or an invariant. The one error is want of memory, and then what was built is of
/// no use.
pub fn build_declaration(
    alloc: Global,
    names: &mut Names,
    built: &mut Built,
    tree: &Tree,
) -> Result<(), AllocError> {
    let word = word_of(tree);
    let Some((name, parts)) = parts_behind(tree).split_first() else {
        return lost();
    };
    let sym = number_of(&*names, name)?;
    if word == "sort" {
        return build_sort(alloc, names, built, sym, parts);
    }
    build_named(alloc, &*names, built, word, sym, parts)
}

/// Adds what any other item declares, by its word, the number of its name, and the parts behind that.
fn build_named(
    alloc: Global,
    names: &Names,
    built: &mut Built,
    word: &str,
    sym: u32,
    parts: &[Tree],
) -> Result<(), AllocError> {
    if word == "protocol" {
        build_protocol(alloc, names, built, sym, parts)
    } else if word == "label" {
        build_label(names, built, sym, parts)
    } else if word == "hook" {
        build_hook(alloc, names, built, sym, parts)
    } else if word == "world" {
        build_world(alloc, names, built, sym, parts)
    } else {
        build_invariant(alloc, names, built, sym, parts)
    }
}

fn build_sort(
    alloc: Global,
    names: &mut Names,
    built: &mut Built,
    sym: u32,
    parts: &[Tree],
) -> Result<(), AllocError> {
    let [body] = parts else {
        return lost();
    };
    if word_of(body) == "range" {
        let sort = interval(parts_behind(body))?;
        built.meanings.declare(sym, Meaning::Sort(sort))?;
        let values = Items::new(alloc);
        names.declare(SortDecl { sym, sort, values })
    } else {
        let trees = parts_behind(body);
        let sort = below(trees.len())?;
        built.meanings.declare(sym, Meaning::Sort(sort))?;
        declare_words(&*names, trees, &mut built.meanings)?;
        match numbers(alloc, &*names, trees) {
            Ok(values) => names.declare(SortDecl { sym, sort, values }),
            Err(error) => Err(error),
        }
    }
}

fn interval(parts: &[Tree]) -> Result<Sort, AllocError> {
    let [low, high] = parts else {
        return lost();
    };
    let low = integer(low)?;
    let high = integer(high)?;
    Ok(Sort { low, high })
}

/// The numbers below a count.
fn below(count: usize) -> Result<Sort, AllocError> {
    match i64::try_from(count) {
        Ok(count) => Ok(Sort {
            low: 0,
            high: count.saturating_sub(1),
        }),
        Err(_) => lost(),
    }
}

fn build_protocol(
    alloc: Global,
    names: &Names,
    built: &mut Built,
    sym: u32,
    parts: &[Tree],
) -> Result<(), AllocError> {
    let at = position(built.decls.inst.protocols.len())?;
    built.meanings.declare(sym, Meaning::Protocol(at))?;
    let protocol = protocol(alloc, &built.around(names), sym, parts);
    add(&mut built.decls.inst.protocols, protocol)
}

fn build_label(
    names: &Names,
    built: &mut Built,
    sym: u32,
    parts: &[Tree],
) -> Result<(), AllocError> {
    let [name] = parts else {
        return lost();
    };
    let protocol = protocol_position(names, built, name)?;
    let at = position(built.decls.labels.len())?;
    built.meanings.declare(sym, Meaning::Label(at))?;
    built.decls.inst.of.push(protocol)?;
    built.decls.labels.push(sym)
}

/// The position of the protocol that the tree names.
fn protocol_position(names: &Names, built: &Built, tree: &Tree) -> Result<u8, AllocError> {
    match meaning_of(&built.around(names), tree)? {
        Meaning::Protocol(at) => Ok(at),
        _ => lost(),
    }
}

fn build_hook(
    alloc: Global,
    names: &Names,
    built: &mut Built,
    sym: u32,
    parts: &[Tree],
) -> Result<(), AllocError> {
    let at = position(built.decls.hooks.len())?;
    built.meanings.declare(sym, Meaning::Hook(at))?;
    let hook = hook(alloc, &built.around(names), sym, parts);
    add(&mut built.decls.hooks, hook)
}

fn build_world(
    alloc: Global,
    names: &Names,
    built: &mut Built,
    sym: u32,
    parts: &[Tree],
) -> Result<(), AllocError> {
    let at = position(built.decls.worlds.len())?;
    built.meanings.declare(sym, Meaning::World(at))?;
    let world = new_world(alloc, names, &*built, sym, parts);
    add(&mut built.decls.worlds, world)
}

fn new_world(
    alloc: Global,
    names: &Names,
    built: &Built,
    sym: u32,
    parts: &[Tree],
) -> Result<World, AllocError> {
    let worlds = built.decls.worlds.as_slice();
    world(alloc, &built.around(names), worlds, sym, parts)
}

fn build_invariant(
    alloc: Global,
    names: &Names,
    built: &mut Built,
    sym: u32,
    parts: &[Tree],
) -> Result<(), AllocError> {
    let at = position(built.decls.invariants.len())?;
    built.meanings.declare(sym, Meaning::Invariant(at))?;
    let invariant = invariant(alloc, &built.around(names), sym, parts);
    add(&mut built.decls.invariants, invariant)
}
