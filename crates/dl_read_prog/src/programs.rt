//! The deployment.

use dl_model::{Deploy, Program};
use dl_read_proto::{
    Around, Meaning, add, finished, found, lost, meaning_of, number_of, parts_of, value_of,
    world_position,
};
use dl_tree::Tree;
use sqlite_items::Items;
use std::alloc::{AllocError, Global};

/// The deployment, by its parts: its world, and the nodes that run a program.
pub(crate) fn deployment(
    alloc: Global,
    around: &Around,
    parts: &[Tree],
) -> Result<Deploy, AllocError> {
    let Some((world, trees)) = parts.split_first() else {
        return lost();
    };
    let world = world_position(around, world)?;
    let mut programs = Items::new(alloc);
    let done = add_programs(alloc, around, trees, &mut programs);
    match finished(programs, done) {
        Ok(programs) => Ok(Deploy { world, programs }),
        Err(error) => Err(error),
    }
}

fn add_programs(
    alloc: Global,
    around: &Around,
    trees: &[Tree],
    programs: &mut Items<Program>,
) -> Result<(), AllocError> {
    for tree in trees {
        add(programs, program(alloc, around, parts_of(tree)))?;
    }
    Ok(())
}

/// What a node runs, by the node, the procedure and the constants.
fn program(alloc: Global, around: &Around, parts: &[Tree]) -> Result<Program, AllocError> {
    let [node, name, constants @ ..] = parts else {
        return lost();
    };
    let node = node_position(around, node)?;
    let proc = procedure_position(around, name)?;
    match all_constants(alloc, around, constants) {
        Ok(constants) => Ok(Program {
            node,
            proc,
            constants,
        }),
        Err(error) => Err(error),
    }
}

fn node_position(around: &Around, tree: &Tree) -> Result<u32, AllocError> {
    let value = constant(around, tree)?;
    match u32::try_from(value) {
        Ok(node) => Ok(node),
        Err(_) => lost(),
    }
}

/// The position of the procedure that the tree names.
pub fn procedure_position(around: &Around, tree: &Tree) -> Result<u8, AllocError> {
    match meaning_of(around, tree)? {
        Meaning::Procedure(at) => Ok(at),
        _ => lost(),
    }
}

fn all_constants(alloc: Global, around: &Around, trees: &[Tree]) -> Result<Items<i64>, AllocError> {
    let mut constants = Items::new(alloc);
    let done = add_constants(around, trees, &mut constants);
    finished(constants, done)
}

fn add_constants(
    around: &Around,
    trees: &[Tree],
    constants: &mut Items<i64>,
) -> Result<(), AllocError> {
    for tree in trees {
        constants.push(constant(around, tree)?)?;
    }
    Ok(())
}

/// The value of a number, a node or an enumerator.
fn constant(around: &Around, tree: &Tree) -> Result<i64, AllocError> {
    match tree {
        Tree::Num { value, .. } => Ok(*value),
        Tree::Sym { .. } => found(value_of(around, number_of(around.names, tree)?)),
        Tree::List { .. } => lost(),
    }
}
